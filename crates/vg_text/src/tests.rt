use crate::number::{
    decimal_of, hexadecimal_at, push_decimal, push_hexadecimal, wide_hexadecimal_at,
};
use crate::piece::{line_at, push_bytes, rest_after};
use std::test::Fail;

#[test]
fn texts_are_written_and_read(rt: HostRuntime) -> Result<(), Fail> {
    let mut out = Vec::new(rt.alloc());
    push_bytes(&mut out, b"pc 0x")?;
    push_hexadecimal(&mut out, 8, 0x1008)?;
    push_bytes(&mut out, b"\nended after ")?;
    push_decimal(&mut out, 18446744073709551615)?;
    let written = b"pc 0x00001008\nended after 18446744073709551615";
    assert_eq!(rt; out.as_slice(), written.as_slice());

    let (line, behind) = line_at(written).ok_or("a line")?;
    assert_eq!(rt; behind.len(), 32);
    let digits = rest_after(b"pc 0x", line).ok_or("a pc")?;
    let (pc, rest) = hexadecimal_at(digits, 8).ok_or("a number")?;
    assert_eq!(rt; pc, 0x1008);
    assert_eq!(rt; rest.len(), 0);
    assert!(rt; rest_after(b"pd", line).is_none());
    assert!(rt; hexadecimal_at(b"000000FF", 8).is_none());
    let (wide, _) = wide_hexadecimal_at(b"0123456789abcdef00", 18).ok_or("a number")?;
    assert_eq!(rt; wide, 0x0123_4567_89ab_cdef_00);

    let table: [(&[u8], Option<u64>); 7] = [
        (b"0", Some(0)),
        (b"1000", Some(1000)),
        (b"18446744073709551615", Some(18446744073709551615)),
        (b"18446744073709551616", None),
        (b"007", None),
        (b"+1", None),
        (b"", None),
    ];
    for (text, number) in table {
        assert_eq!(rt; decimal_of(text), number);
    }
    Ok(())
}
