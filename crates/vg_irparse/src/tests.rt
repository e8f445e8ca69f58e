use super::*;
use std::alloc::Global;
use std::test::Fail;
use vg_irlex::lexemes;

/// How many leaves the type has that a text begins with and how many lexemes are left; or how many are left where the
/// text leaves the grammar, and what was wanted.
fn shown(alloc: Global, text: &[u8]) -> Result<String, Fail> {
    let tokens = lexemes(alloc, text)?;
    let wanted = Wanted {
        role: Role::AnyType,
        behind_type: false,
    };
    match type_at(alloc, wanted, text, tokens.as_slice()) {
        Ok((found, rest)) => {
            let leaves = found.leaves.len();
            let left = rest.len();
            Ok(format!(in alloc; "{leaves} leaves, {left} left")?)
        }
        Err(Stop::Leaves { left, wanted }) => {
            let role = wanted.role;
            let behind = wanted.behind_type;
            Ok(format!(in alloc; "{left} left, {role:?} {behind}")?)
        }
        Err(Stop::OutOfMemory) => Ok(String::from_str(alloc, "out of memory")?),
    }
}

const TEXTS: [(&[u8], &str); 14] = [
    (b"i32", "0 leaves, 0 left"),
    (b"ptr %p", "0 leaves, 1 left"),
    (b"%struct.S, ptr", "0 leaves, 2 left"),
    (b"[4 x { i32, ptr }] undef", "2 leaves, 1 left"),
    (b"{ i1, [0 x i8], %\"a b\" } x", "3 leaves, 1 left"),
    (b"[18446744073709551615 x i8]", "1 leaves, 0 left"),
    (b"[18446744073709551616 x i8]", "4 left, Plain false"),
    (b"i128", "1 left, AnyType false"),
    (b"{ i32, half }", "2 left, AnyType false"),
    (b"{ }", "1 left, AnyType false"),
    (b"[2 x i32*]", "2 left, Plain true"),
    (b"[2x i8]", "3 left, Plain false"),
    (b"{ i8,", "0 left, AnyType false"),
    (b"<{ i8 }>", "5 left, AnyType false"),
];

#[test]
fn texts_have_their_types(rt: HostRuntime) -> Result<(), Fail> {
    for (text, want) in TEXTS {
        let found = shown(rt.alloc(), text)?;
        assert_eq!(rt; found.as_str(), want, "at {text:?}");
    }
    exact_types();
    Ok(())
}

#[test]
fn deep_types_are_refused_for_want_of_memory(rt: HostRuntime) -> Result<(), Fail> {
    let mut text = Vec::new(rt.alloc());
    for _ in 0..1000 {
        text.extend_from_slice(b"[1 x ")?;
    }
    text.extend_from_slice(b"i8")?;
    for _ in 0..1000 {
        text.extend_from_slice(b"]")?;
    }
    let found = shown(rt.alloc(), text.as_slice())?;
    assert_eq!(rt; found.as_str(), "1 leaves, 0 left");
    let mut deeper = Vec::new(rt.alloc());
    deeper.extend_from_slice(b"[1 x ")?;
    deeper.extend_from_slice(text.as_slice())?;
    let found = shown(rt.alloc(), deeper.as_slice())?;
    assert_eq!(rt; found.as_str(), "out of memory");
    Ok(())
}
