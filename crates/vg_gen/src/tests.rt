use crate::text::module;
use std::test::Fail;

/// The expected lengths and sums are those of modules that a program of another language made of the same rules, and
/// that LLVM's assembler and verifier took.
#[test]
fn modules_are_those_of_another_program(rt: HostRuntime) -> Result<(), Fail> {
    let table: [(u64, usize, u64); 3] = [
        (0, 115313, 4964043105011965877),
        (1, 115385, 8263704573491604141),
        (18446744073709551615, 115422, 14857416525195015976),
    ];
    for (number, length, sum) in table {
        let text = module(rt.alloc(), number)?;
        assert_eq!(rt; text.len(), length);
        assert_eq!(rt; sum_of(text.as_slice()), sum);
    }
    Ok(())
}

#[test]
fn module_of_1(rt: HostRuntime) -> Result<(), Fail> {
    let text = module(rt.alloc(), 1)?;
    assert!(rt; text.starts_with(b"define i16 @f0(i16 %v0, i16 %v1)"));
    assert_eq!(rt; lines_with(text.as_slice(), b"define "), 101);
    assert_eq!(rt; lines_with(text.as_slice(), b"  "), 4201);
    Ok(())
}

/// How many lines begin with this.
fn lines_with(text: &[u8], prefix: &[u8]) -> u64 {
    let mut lines: u64 = 0;
    for line in text.split(|c| *c == b'\n') {
        if line.starts_with(prefix) {
            lines = lines.wrapping_add(1);
        }
    }
    lines
}

/// A sum in which each byte counts by its place.
fn sum_of(text: &[u8]) -> u64 {
    let mut sum: u64 = 0;
    for c in text {
        sum = sum.wrapping_mul(31).wrapping_add(u64::from(*c));
    }
    sum
}
