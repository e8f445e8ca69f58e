use super::*;
use std::alloc::Global;
use std::test::Fail;
use vg_irlex::lexemes;
use vg_irparse::Stop;

/// How many lexemes are left behind a global, and what it is; or how many where the text leaves the grammar, and what was
/// wanted.
fn shown(alloc: Global, text: &[u8]) -> Result<String, Fail> {
    let tokens = lexemes(alloc, text)?;
    match global_item_at(alloc, text, tokens.as_slice()) {
        Ok((global, rest)) => {
            let left = rest.len();
            let constant = global.constant;
            let linkage = global.linkage;
            let align = match global.align {
                Some(align) => align.bytes,
                None => 0,
            };
            Ok(format!(in alloc; "{left} left, {constant} {linkage:?} {align}")?)
        }
        Err(Stop::Leaves { left, wanted }) => {
            let role = wanted.role;
            let behind = wanted.behind_type;
            Ok(format!(in alloc; "{left} from the end, {role:?} {behind}")?)
        }
        Err(Stop::OutOfMemory) => Ok(String::from_str(alloc, "out of memory")?),
    }
}

const TEXTS: [(&[u8], &str); 12] = [
    (b"@a = global i32 7", "0 left, false None 0"),
    (
        b"@s = private unnamed_addr constant [3 x i8] c\"ab\\00\", align 1 @b",
        "1 left, true Some(Private) 1",
    ),
    (
        b"@t = internal dso_local global { i32, [2 x i64] } { i32 -1, [2 x i64] [i64 1, i64 2] }",
        "0 left, false Some(Internal) 0",
    ),
    (
        b"@z = common global [0 x ptr] zeroinitializer, align 16",
        "0 left, false Some(Common) 16",
    ),
    (b"@p = constant ptr @a", "0 left, true None 0"),
    (b"@u = global %T undef", "0 left, false None 0"),
    (b"@a = global i8 256", "1 from the end, Initial true"),
    (
        b"@a = global [1 x i8] [i8 -129]",
        "2 from the end, Initial true",
    ),
    (b"@a = global [0 x i8] []", "1 from the end, AnyType false"),
    (b"@a = external global i32", "3 from the end, Plain false"),
    (
        b"@a = dso_local private global i32 1",
        "4 from the end, Plain false",
    ),
    (b"@a = global i32 1, section", "1 from the end, Plain false"),
];

#[test]
fn texts_have_their_globals(rt: HostRuntime) -> Result<(), Fail> {
    for (text, want) in TEXTS {
        let found = shown(rt.alloc(), text)?;
        assert_eq!(rt; found.as_str(), want, "at {text:?}");
    }
    exact_initials();
    exact_globals();
    exact_structures();
    Ok(())
}

#[test]
fn brackets_stand_in_one_another(rt: HostRuntime) -> Result<(), Fail> {
    let alloc = rt.alloc();
    let mut text = Vec::from_slice(alloc, b"@a = global i8 ")?;
    for _ in 0..400 {
        text.extend_from_slice(b"[i8 ")?;
    }
    text.push(b'1')?;
    for _ in 0..400 {
        text.push(b']')?;
    }
    let found = shown(alloc, text.as_slice())?;
    assert_eq!(rt; found.as_str(), "0 left, false None 0");
    Ok(())
}

/// How many lexemes are left behind a named structure, or from where the text leaves the grammar on.
fn left_behind(alloc: Global, text: &[u8]) -> Result<String, Fail> {
    let tokens = lexemes(alloc, text)?;
    match structure_at(alloc, text, tokens.as_slice()) {
        Ok((_, rest)) => {
            let left = rest.len();
            Ok(format!(in alloc; "{left} left")?)
        }
        Err(Stop::Leaves { left, .. }) => Ok(format!(in alloc; "{left} from the end")?),
        Err(Stop::OutOfMemory) => Ok(String::from_str(alloc, "out of memory")?),
    }
}

const STRUCTURES: [(&[u8], &str); 4] = [
    (b"%T = type { i32, [2 x %U] } %U", "1 left"),
    (b"%T = type i32", "1 from the end"),
    (b"%T = type {}", "1 from the end"),
    (b"@T = type { i32 }", "6 from the end"),
];

#[test]
fn texts_have_their_structures(rt: HostRuntime) -> Result<(), Fail> {
    for (text, want) in STRUCTURES {
        let found = left_behind(rt.alloc(), text)?;
        assert_eq!(rt; found.as_str(), want, "at {text:?}");
    }
    Ok(())
}
