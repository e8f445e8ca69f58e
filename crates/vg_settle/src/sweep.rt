//! One sweep over the items, from the first to the last.
ghost use Rattle.std.specs.Prelude.{◌≡◌, ◌*◌, ◌+◌, ◌<◌, ◌≤◌, ◌^◌, pos, neg_ℤ, ◌≤ℤ◌, ◌↔◌, true, false, Some, length, slice_get, slice_set, IsTrue};
ghost use Rattle.vg_settle.specs.Layout.{words_of as words_of_lem};
ghost use Rattle.vg_settle.specs.Settled.{IsCode, LeavesNone};
ghost use Rattle.vg_settle.specs.Sweep.{AreStarts, AreSound, CanReach, CanTest, FitsBy, IsKept, IsMarked, ReachesBy, unmarked};

use crate::item::{Item, Short};

/// Marks each item that fits when it is come to, and says whether there was one. The starts are kept up: behind the
/// item that is looked at they are those before the sweep, but the words between two items there are as they are.
pub fn sweep(items: &[Item], bytes: u64, marks: &mut [bool], starts: &mut [u32]) -> bool
    requires code { IsCode items.now bytes }
    requires starts { AreStarts items.now marks.old starts.old }
    requires sound { AreSound items.now bytes marks.old }
    ensures starts { AreStarts items.now marks.new starts.new }
    ensures sound { AreSound items.now bytes marks.new }
    ensures none { result ≡ false → LeavesNone items.now bytes marks.new }
    ensures fewer { result ≡ true → unmarked marks.new (length items.now) < unmarked marks.old (length items.now) }
{
    let mut from = 0;
    let mut any = false;
    for k in 0..items.len() {
        let item = item_at(items, k);
        starts[k] = from;
        let marked = mark_if_fits(&item, bytes, k, from, starts, marks);
        any |= marked;
        from += words_of(&item, marks[k]);
    }
    starts[items.len()] = from;
    any
}

/// The item with this number.
fn item_at(items: &[Item], k: usize) -> Item
    requires { k < length items.now }
    ensures { slice_get items.now k ≡ Some result }
{
    items[k]
}

/// The words of an item, marked or not.
fn words_of(item: &Item, marked: bool) -> u32
    ensures { result ≡ words_of_lem item.now marked }
{
    if marked {
        match &item.short {
            Some(short) => short.words,
            None => item.words,
        }
    } else {
        item.words
    }
}

/// Marks the item if it isn't marked and would fit if it were; says whether it did so.
fn mark_if_fits(
    item: &Item,
    bytes: u64,
    k: usize,
    from: u32,
    starts: &[u32],
    marks: &mut [bool],
) -> bool
    requires at { k < length marks.old }
    requires table { CanTest item.now bytes k from starts.now }
    ensures marked { result ≡ true → IsMarked item.now bytes k from starts.now marks.old marks.new }
    ensures kept { result ≡ false → IsKept item.now bytes k from starts.now marks.old marks.new }
{
    if marks[k] || !fits(item, bytes, k, from, starts) {
        return false;
    }
    marks[k] = true;
    true
}

/// Whether the item would fit if it alone were marked as well.
fn fits(item: &Item, bytes: u64, k: usize, from: u32, starts: &[u32]) -> bool
    requires { CanTest item.now bytes k from starts.now }
    ensures { IsTrue result ↔ FitsBy item.now bytes k from starts.now }
{
    match &item.short {
        Some(short) => reaches(short, bytes, k, from, starts),
        None => false,
    }
}

/// Whether a short form reaches what it goes to.
fn reaches(short: &Short, bytes: u64, k: usize, from: u32, starts: &[u32]) -> bool
    requires { CanReach short.now bytes k from starts.now }
    ensures { IsTrue result ↔ ReachesBy short.now bytes k from starts.now }
{
    let to = short.to as usize;
    if k < to {
        let between = starts[to] - starts[k + 1];
        reaches_ahead(
            short,
            bytes,
            u64::from(short.words) + u64::from(between) - u64::from(short.lead),
        )
    } else {
        let between = from - starts[to];
        reaches_back(short, bytes, u64::from(between) + u64::from(short.lead))
    }
}

/// Whether so many words ahead are within the greatest distance.
fn reaches_ahead(short: &Short, bytes: u64, words: u64) -> bool
    requires bytes { bytes ≤ 8 }
    requires words { words < 2 ^ 33 }
    ensures { IsTrue result ↔ (pos (bytes * words) ≤ℤ short.now.greatest) }
{
    (bytes * words) as i64 <= short.greatest
}

/// Whether so many words back are within the least distance.
fn reaches_back(short: &Short, bytes: u64, words: u64) -> bool
    requires bytes { bytes ≤ 8 }
    requires words { words < 2 ^ 33 }
    ensures { IsTrue result ↔ (short.now.least ≤ℤ neg_ℤ (pos (bytes * words))) }
{
    short.least <= -((bytes * words) as i64)
}
