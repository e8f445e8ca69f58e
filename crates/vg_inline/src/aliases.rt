ghost use Rattle.std.specs.Prelude.{◌≡◌, [], Some, IfOk};
ghost use Rattle.vg_names.specs.Duplicate.{duplicates};
ghost use Rattle.vg_names.specs.Cyclic.{IsOrder};
ghost use Rattle.vg_whole.specs.Worths.{constants_by};
ghost use Rattle.vg_inline.specs.Context.{aliases_by};
ghost use Rattle.vg_inline.specs.Types.{alias_step, aliases_of};

use crate::Declared;
use crate::context::Context;
use crate::keep::counts;
use crate::whole::declared_type;
use sqlite_items::Items;
use std::alloc::{AllocError, Global};
use vg_ast::{Desc, Item};
use vg_names::Table;
use vg_whole::Worth;

/// What the name of an item stands for in a type, where the aliases that it uses are known.
fn alias_of_item(item: &Item, table: &Table, worths: &[Worth], aliases: &[Declared]) -> Declared
    ensures { result ≡ alias_step (constants_by table.now.items.now worths.now) (aliases_by table.now.items.now aliases.now) (Some item.now) }
{
    match item {
        Item::Using { meaning, .. } => {
            let context = Context {
                table,
                worths,
                aliases,
                bodies: &[],
                keep: counts(),
                parameters: &[],
            };
            declared_type(meaning, &context)
        }
        _ => Declared::Bool,
    }
}

/// What each alias stands for, at its number, where this is an order of what is put in place of its name.
pub fn work_out_aliases(
    alloc: Global,
    description: &Desc,
    table: &Table,
    order: &[usize],
    worths: &[Worth],
) -> Result<Items<Declared>, AllocError>
    requires items { table.now.items.now ≡ description.now.items }
    requires distinct { duplicates description.now ≡ [] }
    requires order { IsOrder description.now.items order.now }
    ensures { let all = description.now.items in IfOk result (λ aliases. aliases_by all aliases ≡ aliases_of all (constants_by all worths.now)) }
{
    let mut aliases = vec![in alloc; Declared::Bool; table.items.len()]?;
    for number in order {
        aliases[*number] = alias_of_item(&table.items[*number], table, worths, &aliases);
    }
    Ok(Items::from_vec(aliases))
}
