use super::*;
use std::alloc::Global;
use std::test::Fail;

/// The tokens of a text with their places, or its fault.
fn shown(alloc: Global, text: &[u8]) -> Result<String, Fail> {
    let found = match tokens(alloc, text) {
        Ok(found) => found,
        Err(fault) => return Ok(format!(in alloc; "{fault:?}")?),
    };
    let mut out = String::new(alloc);
    for token in found.as_slice() {
        let start = token.start;
        let end = token.end;
        write!(out, "{start}..{end} ")?;
        match &token.kind {
            Kind::Name(name) => {
                out.push_str("name ")?;
                push_characters(&mut out, name.as_slice())?;
            }
            Kind::Str(body) => {
                out.push_str("string ")?;
                push_characters(&mut out, body.as_slice())?;
            }
            Kind::Number(value) => write!(out, "number {value}")?,
            Kind::Sign(sign) => write!(out, "{sign:?}")?,
            Kind::Word(word) => write!(out, "{word:?}")?,
        }
        out.push(';')?;
    }
    Ok(out)
}

fn push_characters(out: &mut String, characters: &[char]) -> Result<(), Fail> {
    for c in characters {
        out.push(*c)?;
    }
    Ok(())
}

const TEXTS: [(&str, &str); 44] = [
    ("", ""),
    (" \t\r\n", ""),
    (
        "in int _x9 x_",
        "0..2 In;3..6 name int;7..10 name _x9;11..13 name x_;",
    ),
    (
        "register Register bits Bits",
        "0..8 Register;9..17 name Register;18..22 name bits;23..27 Bits;",
    ),
    ("é中𝒜b1", "0..11 name é中𝒜b1;"),
    (
        "é=中+𝒜",
        "0..2 name é;2..3 Equal;3..6 name 中;6..7 Plus;7..11 name 𝒜;",
    ),
    (
        "0 7 1'000 0x1F 0xff'FF 0b10'01",
        "0..1 number 0;2..3 number 7;4..9 number 1000;10..14 number 31;15..22 number 65535;23..30 number 9;",
    ),
    (
        "340282366920938463463374607431768211455",
        "0..39 number 340282366920938463463374607431768211455;",
    ),
    (
        "0x0ffffffffffffffffffffffffffffffff",
        "0..35 number 340282366920938463463374607431768211455;",
    ),
    ("\"add\"\"a b\"", "0..5 string add;5..10 string a b;"),
    (
        ":= -> .. *# << >> <= >= != { } ( ) [ ] < > , : = + - * / % & | ^ ~ !",
        "0..2 ColonEqual;3..5 Arrow;6..8 DotDot;9..11 StarHash;12..14 LessLess;15..17 GreaterGreater;18..20 LessEqual;21..23 GreaterEqual;24..26 BangEqual;27..28 OpenBrace;29..30 CloseBrace;31..32 OpenParenthesis;33..34 CloseParenthesis;35..36 OpenBracket;37..38 CloseBracket;39..40 Less;41..42 Greater;43..44 Comma;45..46 Colon;47..48 Equal;49..50 Plus;51..52 Minus;53..54 Star;55..56 Slash;57..58 Percent;59..60 Ampersand;61..62 Bar;63..64 Caret;65..66 Tilde;67..68 Bang;",
    ),
    (
        ">=><<<***#::=-->!==",
        "0..2 GreaterEqual;2..3 Greater;3..5 LessLess;5..6 Less;6..7 Star;7..8 Star;8..10 StarHash;10..11 Colon;11..13 ColonEqual;13..14 Minus;14..16 Arrow;16..18 BangEqual;18..19 Equal;",
    ),
    ("a//b\nc", "0..1 name a;5..6 name c;"),
    ("// a\r\nb", "6..7 name b;"),
    ("//", ""),
    ("a/*b*/c", "0..1 name a;6..7 name c;"),
    (
        "/**/x/***/y/*/ */z",
        "4..5 name x;10..11 name y;17..18 name z;",
    ),
    (
        "a/b/* é */1",
        "0..1 name a;1..2 Slash;2..3 name b;11..12 number 1;",
    ),
    ("0x", "BadChar { at: 1 }"),
    ("0xg", "BadChar { at: 1 }"),
    ("0b2", "BadChar { at: 1 }"),
    ("0b12", "BadChar { at: 3 }"),
    ("0x'1", "BadChar { at: 1 }"),
    ("1'", "BadChar { at: 1 }"),
    ("1''2", "BadChar { at: 1 }"),
    ("0x1'g", "BadChar { at: 3 }"),
    ("'1", "BadChar { at: 0 }"),
    ("12ab", "BadChar { at: 2 }"),
    ("1_", "BadChar { at: 1 }"),
    ("1é", "BadChar { at: 1 }"),
    ("340282366920938463463374607431768211456", "Wide { at: 0 }"),
    ("é 0x100000000000000000000000000000000z", "Wide { at: 3 }"),
    ("a /* b", "BadChar { at: 2 }"),
    ("/*/", "BadChar { at: 0 }"),
    ("a\"\"", "BadChar { at: 1 }"),
    ("a \"b", "BadChar { at: 2 }"),
    ("\"a;b\"", "BadChar { at: 0 }"),
    ("\"a:b\"", "BadChar { at: 0 }"),
    ("\"a\\\"", "BadChar { at: 0 }"),
    ("\"é\"", "BadChar { at: 0 }"),
    ("a...", "BadChar { at: 3 }"),
    ("é#", "BadChar { at: 2 }"),
    ("a\u{a0}b", "BadChar { at: 1 }"),
    ("\u{feff}a", "BadChar { at: 0 }"),
];

/// Texts that are no UTF-8.
const BYTES: [(&[u8], &str); 10] = [
    (b"a\xff", "NotUtf8 { at: 1 }"),
    (b"ab \xe4\xb8", "NotUtf8 { at: 3 }"),
    (b"\xed\xa0\x80", "NotUtf8 { at: 0 }"),
    (b"1\xff", "NotUtf8 { at: 1 }"),
    (b"// \xff", "NotUtf8 { at: 3 }"),
    (b"/* \xff */", "NotUtf8 { at: 3 }"),
    (b"/* \xff", "BadChar { at: 0 }"),
    (b"@\xff", "BadChar { at: 0 }"),
    (b"\"a\xff\"", "BadChar { at: 0 }"),
    (
        b"340282366920938463463374607431768211456\xff",
        "Wide { at: 0 }",
    ),
];

#[test]
fn texts_have_their_tokens_or_their_fault(rt: HostRuntime) -> Result<(), Fail> {
    for (text, want) in TEXTS {
        let found = shown(rt.alloc(), text.as_bytes())?;
        assert_eq!(rt; found.as_str(), want, "at {text:?}");
    }
    for (bytes, want) in BYTES {
        let found = shown(rt.alloc(), bytes)?;
        assert_eq!(rt; found.as_str(), want, "at {bytes:?}");
    }
    Ok(())
}

/// A text of 1 MiB: 65,536 lines of 16 bytes with three tokens each.
#[test]
fn a_long_text_is_read(rt: HostRuntime) -> Result<(), Fail> {
    let mut text = Vec::new(rt.alloc());
    for _ in 0..65536 {
        text.extend_from_slice(b"abc := 0x1F //x\n")?;
    }
    let found = tokens(rt.alloc(), text.as_slice())?;
    assert_eq!(rt; found.len(), 196608);
    let last = found.get(196607).ok_or("no last token")?;
    assert_eq!(rt; (last.start, last.end), (1048567, 1048571));
    one_reading();
    Ok(())
}
