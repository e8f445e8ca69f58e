use crate::Mem;
use std::alloc::AllocError;
use vg_bits::Width;

/// Stores four bytes at the end of the addresses, and reads them on both sides of it.
#[test]
fn an_access_wraps(rt: HostRuntime) -> Result<(), AllocError> {
    for width in [16, 32, 64] {
        let mut memory = Mem::new(rt.alloc(), Width::of(width));
        let last = u64::MAX >> (64 - width);
        memory.store(last - 1, 4, 0x0403_0201)?;
        assert_eq!(rt; memory.byte(last - 1), 1);
        assert_eq!(rt; memory.byte(last), 2);
        assert_eq!(rt; memory.byte(0), 3);
        assert_eq!(rt; memory.byte(1), 4);
        assert_eq!(rt; memory.byte(2), 0);
        assert_eq!(rt; memory.load(last - 1, 4), 0x0403_0201);
        assert_eq!(rt; memory.load(last, 2), 0x0302);
        assert_eq!(rt; memory.next_set(2), Some(last - 1));
    }
    Ok(())
}

/// Each size is stored in a page and across two, and loaded again.
#[test]
fn each_size_is_stored(rt: HostRuntime) -> Result<(), AllocError> {
    let value = 0xffee_ddcc_bbaa_9988_7766_5544_3322_1100;
    let mut memory = Mem::new(rt.alloc(), Width::of(32));
    for bytes in 1..17 {
        for at in [0x1000, 0x20f8, 0x30ff] {
            memory.store(at, 16, u128::MAX)?;
            memory.store(at, bytes, value)?;
            let bits = 8 * u32::from(bytes);
            assert_eq!(rt; memory.load(at, bytes), value & (u128::MAX >> (128 - bits)));
            if bytes < 16 {
                assert_eq!(rt; memory.byte(at + u64::from(bytes)), 0xff);
            }
        }
    }
    Ok(())
}

/// The bytes that aren't 0 are found in order, in pages that were taken in another order, also beside pages of zeros.
#[test]
fn set_bytes_are_found(rt: HostRuntime) -> Result<(), AllocError> {
    let mut memory = Mem::new(rt.alloc(), Width::of(64));
    memory.room(0x4000, 0x4fff)?;
    for at in [0xffff_ffff_ffff_ffff, 0x4801, 0x41ff, 0x4200, 0x17] {
        memory.store(at, 1, 0x2a)?;
    }
    memory.store(0x4200, 1, 0)?;
    let mut from = 0;
    for expected in [0x17, 0x41ff, 0x4801, 0xffff_ffff_ffff_ffff] {
        assert_eq!(rt; memory.next_set(from), Some(expected));
        assert_eq!(rt; memory.next_set(expected), Some(expected));
        if expected < u64::MAX {
            from = expected + 1;
        }
    }
    memory.store(0xffff_ffff_ffff_ffff, 1, 0)?;
    assert_eq!(rt; memory.next_set(from), None);
    Ok(())
}

/// Pages whose numbers have the same hint, and accesses to them in turn.
#[test]
fn pages_of_one_hint_stay_apart(rt: HostRuntime) -> Result<(), AllocError> {
    let mut memory = Mem::new(rt.alloc(), Width::of(32));
    for k in 0..8 {
        memory.store(0x40000 * k, 4, u128::from(k) + 1)?;
    }
    for k in 0..8 {
        assert_eq!(rt; memory.load(0x40000 * k, 4), u128::from(k) + 1);
    }
    Ok(())
}
