use super::*;
use std::alloc::Global;
use std::test::Fail;

/// The lexemes of a text with their places; `^` stands before those that are the first on their line.
fn shown(alloc: Global, text: &[u8]) -> Result<String, Fail> {
    let found = lexemes(alloc, text)?;
    let mut out = String::new(alloc);
    for lexeme in found.as_slice() {
        if lexeme.fresh {
            out.push('^')?;
        }
        let start = lexeme.start;
        let end = lexeme.end;
        let len = piece(text, *lexeme).len();
        write!(out, "{start}-{end}+{len} ")?;
    }
    Ok(out)
}

const TEXTS: [(&[u8], &str); 22] = [
    (b"", ""),
    (b" \t\r\n", ""),
    (
        b"%x = add i32 1, -2",
        "^0-2+2 3-4+1 5-8+3 9-12+3 13-14+1 14-15+1 16-18+2 ",
    ),
    (b"; all of it", ""),
    (b"a ; b\nc", "^0-1+1 ^6-7+1 "),
    (
        b"!0 = !{}\n!1",
        "^0-1+1 1-2+1 3-4+1 5-6+1 6-7+1 7-8+1 ^9-10+1 10-11+1 ",
    ),
    (b"  !x", "^2-3+1 3-4+1 "),
    (b"%1a @2", "^0-2+2 2-3+1 4-6+2 "),
    (b"%-$._9 @a#b", "^0-6+6 7-9+2 9-11+2 "),
    (b"%\"a b\" @\"\"", "^0-6+6 7-10+3 "),
    (b"\"a;b\" ; c\"", "^0-5+5 "),
    (b"c\"x\\00\" c \"y\"", "^0-7+7 8-9+1 10-13+3 "),
    (b"ac\"x\"", "^0-2+2 2-5+3 "),
    (b"c\"x", "^0-1+1 1-2+1 2-3+1 "),
    (b"%\"x", "^0-1+1 1-2+1 2-3+1 "),
    (b"% @", "^0-1+1 2-3+1 "),
    (b"%%x", "^0-1+1 1-3+2 "),
    (b"\"a\nb\" !x", "^0-5+5 6-7+1 7-8+1 "),
    (
        b"#0 #dbg_value(...)",
        "^0-2+2 3-13+10 13-14+1 14-17+3 17-18+1 ",
    ),
    (b"[2x i8]<{", "^0-1+1 1-3+2 4-6+2 6-7+1 7-8+1 8-9+1 "),
    (b"\x80a\xff", "^0-1+1 1-2+1 2-3+1 "),
    (b"a:b\rc", "^0-1+1 1-2+1 2-3+1 4-5+1 "),
];

#[test]
fn texts_have_their_lexemes(rt: HostRuntime) -> Result<(), Fail> {
    for (text, want) in TEXTS {
        let found = shown(rt.alloc(), text)?;
        assert_eq!(rt; found.as_str(), want, "at {text:?}");
    }
    Ok(())
}

#[test]
fn a_long_text_is_read(rt: HostRuntime) -> Result<(), Fail> {
    let mut text = Vec::new(rt.alloc());
    for _ in 0..65536 {
        text.extend_from_slice(b"%a = add i32 1, 2 ;x\n")?;
    }
    let found = lexemes(rt.alloc(), text.as_slice())?;
    assert_eq!(rt; found.len(), 458752);
    one_list();
    Ok(())
}
