ghost use Rattle.std.specs.Prelude.{◌≡◌, IfOk, ℕ};
ghost use Rattle.std.specs.Option.{option_map};
ghost use Rattle.vg_decode.specs.Decoding.{found_in};

use crate::candidate::{Candidate, first_fit};
use sqlite_items::{Boxed, Items};
use vg_isa::InstrId;

/// A tree of tests of a word.
#[derive(Drop)]
pub(crate) enum Tree {
    /// The instructions that are left, in the order of the text.
    Leaf(Items<Candidate>),
    /// A mask; the first tree is for words that have no bit of it, and the second for all others.
    Test(u64, Boxed<Tree>, Boxed<Tree>),
}

/// The instruction that a word matches by a tree.
pub(crate) fn find_in(tree: &Tree, word: u64) -> Option<InstrId>
    ensures { option_map (λ i. i.0) result ≡ found_in tree.now word }
{
    match tree {
        Tree::Leaf(candidates) => first_fit(candidates.as_slice(), word),
        Tree::Test(mask, none, some) => {
            if word & *mask == 0 {
                find_in(none.get(), word)
            } else {
                find_in(some.get(), word)
            }
        }
    }
}
