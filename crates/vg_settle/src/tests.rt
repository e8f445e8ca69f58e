ghost use Rattle.std.specs.Prelude.{◌≡◌, Some, IsTrue};
ghost use Rattle.vg_settle.specs.declared.item.Short.{Short as ShortForm};
ghost use Rattle.vg_settle.specs.Layout.{IsShort};
ghost use Rattle.vg_settle.specs.Settled.{IsCode};

use crate::item::{Item, Short};
use crate::settling::settle;
use std::test::Fail;

/// Two jumps over nine words, which fit where both are short and the greatest distance is 44.
#[test]
fn a_jump_fits_behind_another_that_fits(rt: HostRuntime) -> Result<(), Fail> {
    let jump = jump(5, 3, -44, 44);
    let items = [jump, jump, plain(9), plain(1)];
    assert!(rt; is_code(&items));
    let marks = settle(rt.alloc(), &items, 4)?;
    assert_eq!(rt; marks.as_slice(), [true, true, false, false].as_slice());
    Ok(())
}

/// The same with the greatest distance 43: that of the first is 44 with itself marked.
#[test]
fn the_distance_is_that_with_the_jump_marked(rt: HostRuntime) -> Result<(), Fail> {
    let jump = jump(5, 3, -44, 43);
    let items = [jump, jump, plain(9), plain(1)];
    assert!(rt; is_code(&items));
    let marks = settle(rt.alloc(), &items, 4)?;
    assert_eq!(rt; marks.as_slice(), [false, true, false, false].as_slice());
    Ok(())
}

/// Two jumps over one another, each of which fits only where the other is short: both stay long, as they are at first.
#[test]
fn items_are_long_at_first(rt: HostRuntime) -> Result<(), Fail> {
    let items = [jump(5, 2, -8, 8), jump(5, 0, -8, 8), plain(1)];
    assert!(rt; is_code(&items));
    let marks = settle(rt.alloc(), &items, 4)?;
    assert_eq!(rt; marks.as_slice(), [false, false, false].as_slice());
    Ok(())
}

/// A jump back over 11 words, one to itself, and one back that fits once that is short.
#[test]
fn jumps_back(rt: HostRuntime) -> Result<(), Fail> {
    let items = [
        plain(11),
        jump(3, 0, -44, 0),
        jump(3, 2, 0, 0),
        jump(3, 0, -52, 0),
        jump(3, 0, -55, 0),
    ];
    assert!(rt; is_code(&items));
    let marks = settle(rt.alloc(), &items, 4)?;
    assert_eq!(rt;
        marks.as_slice(),
        [false, true, true, true, false].as_slice()
    );
    Ok(())
}

/// A long jump of so many words; short it has one.
fn jump(words: u32, to: u32, least: i64, greatest: i64) -> Item {
    let short = Short {
        to,
        words: 1,
        lead: 0,
        least,
        greatest,
    };
    Item {
        words,
        short: Some(short),
    }
}

/// So many words that go nowhere.
fn plain(words: u32) -> Item {
    Item { words, short: None }
}

/// Whether the items are such as `settle` asks for, at words of 4 bytes.
fn is_code(items: &[Item]) -> bool
    ensures { IsTrue result → IsCode items.now 4 }
{
    let mut words = 0;
    for item in items {
        if !is_well_formed(items, item) {
            return false;
        }
        words += u64::from(item.words);
        if words >= 1 << 32 {
            return false;
        }
    }
    true
}

/// Whether the short form of an item, if it has one, is well formed.
fn is_well_formed(items: &[Item], item: &Item) -> bool
    ensures { IsTrue result → (short : ShortForm) → item.now.short ≡ Some short → IsShort items.now item.now short }
{
    match &item.short {
        Some(short) => {
            let within = short.lead < short.words && short.words <= item.words;
            within && short.least <= 0 && 0 <= short.greatest && short.to as usize <= items.len()
        }
        None => true,
    }
}
