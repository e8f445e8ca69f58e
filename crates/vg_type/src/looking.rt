//! What names are.

ghost use Rattle.std.specs.Prelude.{◌≡◌, None, Some};
ghost use Rattle.std.specs.Option.{option_copied};
ghost use Rattle.vg_inline.specs.Context.{constants_in};
ghost use Rattle.vg_whole.specs.Worths.{worth_at as worth_by};
ghost use Rattle.vg_type.specs.Setting.{globals_in, scope_in};
ghost use Rattle.vg_type.specs.Scope.{item_sort as item_sort_of};

use crate::Sort;
use crate::declaring::{counter_sort, type_in};
use crate::names::Names;
use crate::sort::{sort_of_type, whole_or};
use vg_ast::{Item, Name, Parameter};
use vg_inline::Context;
use vg_whole::Worth;

fn worth_at(worths: &[Worth], number: Option<usize>) -> Worth
    ensures { result ≡ worth_by worths.now number }
{
    match number {
        None => Worth::Typed,
        Some(number) => worths.get(number).copied().unwrap_or(Worth::Typed),
    }
}

/// What the name of a constant is worth.
fn constant(text: &[char], context: &Context) -> Worth
    ensures { result ≡ constants_in context.now text.now }
{
    worth_at(context.worths, context.table.number(text))
}

/// What the name of an item is as a value.
pub fn item_sort(item: Option<&Item>, context: &Context) -> Sort
    ensures { result ≡ item_sort_of (globals_in context.now) (option_copied item.entry) }
{
    match item {
        Some(Item::Constant { name, .. }) => {
            whole_or(constant(name.text.as_slice(), context), Sort::Untyped)
        }
        Some(Item::ProgramCounter { declared, .. }) => counter_sort(declared, context),
        Some(Item::Register { declared, .. }) => sort_of_type(type_in(declared, context)),
        _ => Sort::Untyped,
    }
}

/// What a name is as a value, where no inner name hides it.
pub fn global(text: &[char], context: &Context) -> Sort
    ensures { result ≡ (scope_in context.now).value text.now }
{
    item_sort(context.table.item(text), context)
}
