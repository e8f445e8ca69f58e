//! The items that are left where everything is put in place of its name.

ghost use Rattle.std.specs.Prelude.{◌≡◌, IfOk};
ghost use Rattle.std.specs.List.{filter};
ghost use Rattle.vg_form.specs.Description.{declares};
ghost use Rattle.vg_form.specs.Given.{items_in};

use crate::remaining::Remaining;
use std::alloc::{AllocError, Global};
use vg_ast::Item;

/// Whether an item declares something that is left where constants, aliases and functions are put in place.
fn declares(item: &Item) -> bool
    ensures { result ≡ declares item.now }
{
    match item {
        Item::Constant { .. } | Item::Using { .. } | Item::Function { .. } => false,
        _ => true,
    }
}

/// The items that are left.
pub(crate) fn left<'a>(alloc: Global, items: &'a [Item]) -> Result<Vec<Remaining<'a>>, AllocError>
    ensures { IfOk result (λ left. items_in left.items ≡ filter declares items.now) }
{
    let mut left = Vec::new(alloc);
    let mut rest = items;
    while let Some((item, more)) = rest.split_first() {
        if declares(item) {
            left.push(Remaining { item })?;
        }
        rest = more;
    }
    Ok(left)
}
