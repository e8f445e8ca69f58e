ghost use Rattle.std.specs.Prelude.{◌≡◌, IfOk};
ghost use Rattle.vg_names.specs.Duplicate.{duplicates};
ghost use Rattle.vg_names.specs.First.{first_of};
ghost use Rattle.vg_names.specs.Unknown.{unknowns};

use crate::duplicate::first_repeated;
use crate::lacking::lacking;
use crate::unknown_item::items;
use crate::unknown_part::{abi, micro};
use indexmap::IndexSet;
use std::alloc::{AllocError, Global};
use vg_ast::Desc;
use vg_names::Table;

/// The place of the first name in the text that is defined for the second time in its scope, or of the second of
/// something that may stand once; None where there is none.
#[tactic(auto, using(vg_names::proofs::MetLemmas::first_of_repeated))]
pub fn first_duplicate(alloc: Global, description: &Desc) -> Result<Option<usize>, AllocError>
    ensures { IfOk result (λ found. found ≡ first_of (duplicates description.now)) }
{
    first_repeated(&mut IndexSet::new(alloc), description)
}

/// The place of the first name in the text that its scope doesn't define as what the place asks for, or at which
/// something is lacking; None where there is none.
#[tactic(auto, using(vg_names::proofs::FirstLemmas::first_steps))]
pub fn first_unknown(alloc: Global, description: &Desc) -> Result<Option<usize>, AllocError>
    ensures { IfOk result (λ found. found ≡ first_of (unknowns description.now)) }
{
    let table = Table::new(alloc, description.items.as_slice())?;
    Ok(
        items(&table)
            .or(lacking(table.items, description.close))
            .or(abi(&description.name, &description.abi, &table))
            .or(micro(&description.name, &description.micro, &table)),
    )
}
