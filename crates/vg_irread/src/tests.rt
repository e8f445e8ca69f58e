use super::*;
use crate::instruction::operation_at;
use crate::operand::result_name_at;
use std::alloc::Global;
use std::test::Fail;
use vg_irlex::lexemes;
use vg_irparse::Stop;

/// How many lexemes are left behind an instruction; or how many where the text leaves the grammar, and what was wanted.
fn shown(alloc: Global, text: &[u8]) -> Result<String, Fail> {
    let tokens = lexemes(alloc, text)?;
    match result_name_at(alloc, text, tokens.as_slice()) {
        Ok((name, rest)) => match operation_at(alloc, name, text, rest) {
            Ok((_, rest)) => {
                let left = rest.len();
                Ok(format!(in alloc; "{left} left")?)
            }
            Err(stop) => shown_stop(alloc, stop),
        },
        Err(stop) => shown_stop(alloc, stop),
    }
}

fn shown_stop(alloc: Global, stop: Stop) -> Result<String, Fail> {
    match stop {
        Stop::Leaves { left, wanted } => {
            let role = wanted.role;
            let behind = wanted.behind_type;
            Ok(format!(in alloc; "{left} from the end, {role:?} {behind}")?)
        }
        Stop::OutOfMemory => Ok(String::from_str(alloc, "out of memory")?),
    }
}

const TEXTS: [(&[u8], &str); 12] = [
    (b"%r = add nuw nsw i32 %a, -1", "0 left"),
    (
        b"%r = add nsw nuw i32 %a, 1",
        "5 from the end, ValueType false",
    ),
    (b"%r = or disjoint i64 1, %b, !dbg !1", "5 left"),
    (b"%r = add i8 256, 1", "3 from the end, Operand true"),
    (
        b"%r = add [2 x i8] %a, %b",
        "8 from the end, ValueType false",
    ),
    (b"%r = icmp samesign ult ptr %p, null", "0 left"),
    (b"%r = icmp lt i32 1, 2", "5 from the end, Plain false"),
    (b"%r = select i1 true, i8 1, i8 2", "0 left"),
    (
        b"%r = select i8 1, i8 1, i8 2",
        "8 from the end, FixedType false",
    ),
    (b"%r = zext nneg i8 %a to i32 }", "1 left"),
    (b"%r = freeze half 1", "2 from the end, ValueType false"),
    (b"%r = fadd i8 1, 2", "5 from the end, Operation false"),
];

#[test]
fn texts_have_their_instructions(rt: HostRuntime) -> Result<(), Fail> {
    for (text, want) in TEXTS {
        let found = shown(rt.alloc(), text)?;
        assert_eq!(rt; found.as_str(), want, "at {text:?}");
    }
    exact_operands();
    exact_instructions();
    Ok(())
}

/// How many lexemes are left behind a terminator; or how many where the text leaves the grammar, and what was wanted.
fn shown_terminator(alloc: Global, text: &[u8]) -> Result<String, Fail> {
    let tokens = lexemes(alloc, text)?;
    match terminator_at(alloc, text, tokens.as_slice()) {
        Ok((_, rest)) => {
            let left = rest.len();
            Ok(format!(in alloc; "{left} left")?)
        }
        Err(stop) => shown_stop(alloc, stop),
    }
}

const TERMINATORS: [(&[u8], &str); 10] = [
    (b"br label %a, !dbg !7", "5 left"),
    (b"br i1 %c, label %a, label %b", "0 left"),
    (
        b"br i8 1, label %a, label %b",
        "8 from the end, FixedType false",
    ),
    (
        b"switch i8 %v, label %d [ i8 -1, label %a i8 2, label %b ]",
        "0 left",
    ),
    (
        b"switch i8 %v, label %d [ i8 256, label %a ]",
        "5 from the end, Plain true",
    ),
    (
        b"switch i8 %v, label %d [ half 1, label %a ]",
        "6 from the end, AnyType false",
    ),
    (b"ret void }", "1 left"),
    (b"ret i32* %p", "2 from the end, Operand true"),
    (b"unreachable", "0 left"),
    (b"resume i8 1", "3 from the end, Plain false"),
];

#[test]
fn texts_have_their_terminators(rt: HostRuntime) -> Result<(), Fail> {
    for (text, want) in TERMINATORS {
        let found = shown_terminator(rt.alloc(), text)?;
        assert_eq!(rt; found.as_str(), want, "at {text:?}");
    }
    exact_terminators();
    Ok(())
}
