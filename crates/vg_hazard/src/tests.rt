use crate::choice::Choice;
use crate::choosing::choose;
use crate::writer::Writer;
use vg_bits::{Bits, Width};

fn number(n: u32) -> Bits {
    Bits::of(Width::of(32), u128::from(n))
}

fn writer(guard: Option<bool>, n: u32) -> Writer {
    Writer {
        guard,
        value: Some(number(n)),
    }
}

#[test]
fn the_youngest_writer_that_may_write_decides(rt: HostRuntime) {
    let passed = [writer(Some(false), 9)];
    let two = [
        writer(Some(true), 7),
        writer(Some(true), 8),
        writer(Some(false), 9),
    ];
    let unknown = [
        writer(Some(true), 7),
        writer(None, 8),
        writer(Some(false), 9),
    ];
    assert_eq!(rt; choose(true, &passed), Choice::Register);
    assert_eq!(rt; choose(true, &two), Choice::Take(number(8)));
    assert_eq!(rt; choose(false, &two), Choice::Wait);
    assert_eq!(rt; choose(true, &unknown), Choice::Wait);
}
