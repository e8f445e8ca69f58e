#![tactic(auto, using(vg_names::proofs::FirstLemmas::first_steps))]

ghost use Rattle.std.specs.Prelude.{◌≡◌};
ghost use Rattle.vg_names.specs.First.{first_of};
ghost use Rattle.vg_whole.specs.Overflow.{overflows};
ghost use Rattle.vg_whole.specs.Worths.{constants_by};

use crate::Worth;
use crate::overflow_item::items;
use crate::overflow_part::abi;
use vg_ast::Desc;
use vg_names::Table;

/// The place of the first operator of a description, in the order of the text, that leaves 0 to 2^128 - 1 or divides by
/// 0, where the items are worth this.
pub fn first_overflow(description: &Desc, table: &Table, worths: &[Worth]) -> Option<usize>
    requires { table.now.items.now ≡ description.now.items }
    ensures { result ≡ first_of (overflows description.now (constants_by description.now.items worths.now)) }
{
    items(table, worths).or(abi(&description.abi, table, worths))
}
