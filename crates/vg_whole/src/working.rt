ghost use Rattle.std.specs.Prelude.{◌≡◌, [], Some, IfOk};
ghost use Rattle.vg_names.specs.Duplicate.{duplicates};
ghost use Rattle.vg_names.specs.Cyclic.{IsOrder};
ghost use Rattle.vg_whole.specs.Whole.{constant_whole, constant_worth as constant_worth_of};
ghost use Rattle.vg_whole.specs.Worths.{constants_by, AreWorths, ConstantsAreWorked};

use crate::Worth;
use crate::bindings::Bindings;
use crate::judging::judged;
use sqlite_items::Items;
use std::alloc::{AllocError, Global};
use vg_ast::{Desc, Item};
use vg_names::{Inner, Table};

/// What a constant is worth, by what its expression is.
fn constant_worth(worth: Worth) -> Worth
    ensures { result ≡ constant_worth_of worth }
{
    match worth {
        Worth::Whole(value) => Worth::Whole(value),
        Worth::NoValue | Worth::Typed => Worth::NoValue,
    }
}

/// What an item is worth, where those of the constants that it uses are known.
fn worth_of_item(item: &Item, table: &Table, worths: &[Worth]) -> Worth
    ensures { result ≡ constant_whole (constants_by table.now.items.now worths.now) (Some item.now) }
{
    match item {
        Item::Constant { value, .. } => {
            let value = judged(value.get(), &Bindings::Typed(Inner::Nothing), table, worths);
            constant_worth(value.worth)
        }
        _ => Worth::Typed,
    }
}

/// What the items of a description are worth, where this is an order of what is put in place of its name.
pub fn worths(
    alloc: Global,
    description: &Desc,
    table: &Table,
    order: &[usize],
) -> Result<Items<Worth>, AllocError>
    requires items { table.now.items.now ≡ description.now.items }
    requires distinct { duplicates description.now ≡ [] }
    requires order { IsOrder description.now.items order.now }
    ensures { IfOk result (λ worths. AreWorths description.now.items worths) }
{
    let mut worths = vec![in alloc; Worth::Typed; table.items.len()]?;
    for number in order {
        worths[*number] = worth_of_item(&table.items[*number], table, &worths);
    }
    Ok(Items::from_vec(worths))
}

/// A law: constants are worth what their expressions are, and there is one way to value them so.
pub fn constants_are_worked()
    ensures { ConstantsAreWorked }
{}
