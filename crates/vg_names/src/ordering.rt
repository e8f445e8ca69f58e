ghost use Rattle.std.specs.Prelude.{◌≡◌, ◌<◌, [], length, IfOk, slice_get};
ghost use Rattle.std.specs.List.{All, filter};
ghost use Rattle.std.specs.Option.{option_copied};
ghost use Rattle.vg_names.specs.Duplicate.{duplicates};
ghost use Rattle.vg_names.specs.Cyclic.{is_replaced, replaced_name as name_replaced};
ghost use Rattle.vg_names.specs.Answer.{Answers};

use crate::graph::sorted;
use crate::sorting::Sorting;
use crate::uses::uses_of_items;
use sqlite_items::Items;
use std::alloc::{AllocError, Global};
use vg_ast::{Desc, Item, Name};

/// The order of the items that are put in place of their names, or the first that uses itself.
#[derive(Drop)]
pub enum Order {
    /// The numbers of the constants, aliases and functions among the items, each once, behind all that it uses.
    Sorted(Items<usize>),
    /// The place of the name of the first item that uses itself.
    Cyclic { at: usize },
}

/// The name that an item is put in place of.
fn replaced_name(item: &Item) -> Option<&Name>
    ensures { option_copied result ≡ name_replaced item.now }
{
    match item {
        Item::Constant { name, .. } | Item::Using { name, .. } | Item::Function { name, .. } =>
            Some(name),
        _ => None,
    }
}

/// The numbers of the constants, aliases and functions, in their order.
fn replaced_items(
    alloc: Global,
    items: &[Item],
    order: &[usize],
) -> Result<Items<usize>, AllocError>
    requires { All (λ number. number < length items.now) order.now }
    ensures { IfOk result (λ replaced. replaced ≡ filter (λ number. is_replaced (slice_get items.now number)) order.now) }
{
    let mut replaced = Items::new(alloc);
    for number in order {
        if replaced_name(&items[*number]).is_some() {
            replaced.push(*number)?;
        }
    }
    Ok(replaced)
}

/// Puts the constants, aliases and functions of a description into an order in which each stands behind all that it
/// uses, or tells the first in the text that uses itself.
pub fn order_of(alloc: Global, description: &Desc) -> Result<Order, AllocError>
    requires distinct { duplicates description.now ≡ [] }
    ensures { IfOk result (λ answer. Answers description.now.items answer) }
{
    let items = description.items.as_slice();
    let graph = uses_of_items(alloc, items)?;
    match sorted(alloc, graph.as_slice())? {
        Sorting::Order(order) => Ok(Order::Sorted(replaced_items(alloc, items, order.as_slice())?)),
        Sorting::Circular(node) => match replaced_name(&items[node]) {
            Some(name) => Ok(Order::Cyclic { at: name.at }),
            None => unreachable!(),
        },
    }
}
