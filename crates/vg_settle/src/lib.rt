//! Which jumps of a code are short, where a jump that is short makes others shorter.
//!
//! In go the items of a code, in order: each has so many words, and some have a short form of fewer words that goes to
//! another item and reaches it within a least and a greatest distance ([`Item`], [`Short`]). Out comes which items are
//! short ([`settle`]). All are long at first, and are made short one by one while one fits.
//!
//! The theorem (`IsSettled` of `specs/Settled.antt`): only items with a short form are marked, in the layout of the
//! marks each marked item reaches what it goes to, and no unmarked item would fit if it alone were marked as well. The
//! marks are also the least that leave none so; by this they are the only answer. Where items start, how many words
//! they have and how far they reach is said in `specs/Layout.antt`.
//!
//! It sweeps over the items from the first to the last until a sweep marks none. Each sweep takes time for the items
//! alone: a table has the start of each, and what is tested is exact at that moment, so each mark counts for all behind
//! it at once. There is at most one sweep more than items that are marked; so n items of which m become short take at
//! most n times m + 1 tests. Layouts that occur take few sweeps, since a jump hangs on those inside it: 3 to 5 where
//! 262,144 items have targets at random (15 to 30 ms), and 63 where each of them is a jump to the end (0.3 s). Memory
//! is 5 bytes an item.
//!
//! Limits: a word has 2, 4 or 8 bytes; all words together are below 2^32.
//!
//! ```text
//! // two jumps over nine words: both fit, since the distance of the first is 44 where the second is short
//! let jump = Item { words: 5, short: Some(Short { to: 3, words: 1, lead: 0, least: -44, greatest: 44 }) };
//! let items = [jump, jump, Item { words: 9, short: None }, Item { words: 1, short: None }];
//! let marks = settle(alloc, &items, 4)?; // true, true, false, false
//! ```
#![tactic(auto)]

mod item;
mod settling;
mod sweep;
#[cfg(test)]
mod tests;

pub use item::{Item, Short};
pub use settling::settle;
