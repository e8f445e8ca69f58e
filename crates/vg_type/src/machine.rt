//! How wide the program counter and the formats are.
#![tactic(auto, using(crate::proofs::MachineLemmas::counter_here, crate::proofs::MachineLemmas::counter_behind, crate::proofs::MachineLemmas::format_here, crate::proofs::MachineLemmas::format_behind))]

ghost use Rattle.std.specs.Prelude.{◌≡◌};
ghost use Rattle.std.specs.Option.{option_copied};
ghost use Rattle.vg_inline.specs.Context.{items_of};
ghost use Rattle.vg_type.specs.Item.{first_format, width_given};
ghost use Rattle.vg_type.specs.Machine.{counter_of as counter_type_of, format_of as format_type_of};
ghost use Rattle.vg_type.specs.Scope.{address_width};
ghost use Rattle.vg_type.specs.Setting.{globals_in};

use crate::declaring::width_in;
use sqlite_items::Boxed;
use vg_ast::{Expr, Item, TypeExpr};
use vg_inline::{Context, declared_type};

fn counter_of(item: &Item) -> Option<&TypeExpr<Boxed<Expr>>>
    ensures { option_copied result ≡ counter_type_of item.now }
{
    match item {
        Item::ProgramCounter { declared, .. } => Some(declared),
        _ => None,
    }
}

fn format_of(item: &Item) -> Option<&TypeExpr<Boxed<Expr>>>
    ensures { option_copied result ≡ format_type_of item.now }
{
    match item {
        Item::Format { declared, .. } => Some(declared),
        _ => None,
    }
}

/// The declared width of the first program counter.
pub fn counter_width(context: &Context) -> Option<u128>
    ensures { result ≡ address_width (items_of context.now) (globals_in context.now) }
{
    for item in context.table.items {
        if let Some(declared) = counter_of(item) {
            return width_in(declared_type(declared, context));
        }
    }
    None
}

/// The declared width of the first format.
pub fn format_width(context: &Context) -> Option<u128>
    ensures { result ≡ width_given (globals_in context.now) (first_format (items_of context.now)) }
{
    for item in context.table.items {
        if let Some(declared) = format_of(item) {
            return width_in(declared_type(declared, context));
        }
    }
    None
}
