ghost use Rattle.std.specs.Prelude.{◌≡◌, slice_get, map};
ghost use Rattle.std.specs.Option.{option_map, option_copied};
ghost use Rattle.std.specs.Str.{bytes_eq};
ghost use Rattle.vg_ast.specs.declared.field.Field.{Field as FieldOf};
ghost use Rattle.vg_names.specs.Definition.{fields_of_format, item_named};
ghost use Rattle.vg_whole.specs.Whole.{inner_of};
ghost use Rattle.vg_inline.specs.Inline.{callee_of, field_values, parameter_values};
ghost use Rattle.vg_inline.specs.Context.{inner_at, found_value, items_of, parameters_called};
ghost use Rattle.vg_inline.specs.Kept.{keeping_as};

use crate::context::Context;
use crate::found::Found;
use crate::keep::Keep;
use crate::names::Names;
use vg_ast::{Field, Item, Name, Parameter};

fn is_named(name: &Name, text: &[char]) -> bool
    ensures { result ≡ bytes_eq name.now.text text.now }
{
    name.text.as_slice() == text
}

/// The first field of a name.
fn field_named(fields: &[Field], text: &[char], keep: Keep) -> Option<Found<'static>>
    ensures { option_map (found_value keep) result ≡ inner_of (field_values (keeping_as keep) 0 (map (λ (field : FieldOf). field.name.text) fields.now)) text.now }
{
    for (number, field) in fields.iter().enumerate() {
        if is_named(&field.name, text) {
            return Some(Found::Field(number));
        }
    }
    None
}

/// The first parameter of a name.
fn parameter_named(parameters: &[Parameter], text: &[char], keep: Keep) -> Option<Found<'static>>
    ensures { option_map (found_value keep) result ≡ inner_of (parameter_values (keeping_as keep) 0 parameters.now) text.now }
{
    for (number, parameter) in parameters.iter().enumerate() {
        if is_named(&parameter.name, text) {
            return Some(Found::Parameter(number));
        }
    }
    None
}

/// The first field of a name in the format of a number.
fn field_of(items: &[Item], format: usize, text: &[char], keep: Keep) -> Option<Found<'static>>
    ensures { option_map (found_value keep) result ≡ inner_of (field_values (keeping_as keep) 0 (fields_of_format (slice_get items.now format))) text.now }
{
    match items.get(format) {
        Some(Item::Format { fields, .. }) => field_named(fields.as_slice(), text, keep),
        _ => None,
    }
}

/// What an inner name stands for; None where a name is none of them.
pub fn find<'a>(text: &[char], names: &Names<'a>, context: &Context) -> Option<Found<'a>>
    ensures { option_map (found_value context.now.keep) result ≡ inner_of (inner_at context.now names.now) text.now }
{
    match names {
        Names::Nothing => None,
        Names::Fields(format) => field_of(context.table.items, *format, text, context.keep),
        Names::Parameters => parameter_named(context.parameters, text, context.keep),
        Names::Let { name, value, outer } => {
            if name.text.as_slice() == text {
                Some(Found::Bound(*value))
            } else {
                find(text, outer, context)
            }
        }
    }
}

/// The parameters of an item, where it is a function.
fn parameters_of<'a>(item: Option<&'a Item>) -> Option<&'a [Parameter]>
    ensures { option_copied result ≡ parameters_called (option_copied item.entry) }
{
    match item {
        Some(Item::Function { parameters, .. }) => Some(parameters.as_slice()),
        _ => None,
    }
}

/// The parameters of the function that a call of a name calls.
pub fn function_called<'a>(
    text: &[char],
    names: &Names,
    context: &Context<'a>,
) -> Option<&'a [Parameter]>
    ensures { option_copied result ≡ parameters_called (callee_of (inner_of (inner_at context.now names.now) text.now) (item_named (items_of context.now) text.now)) }
{
    match find(text, names, context) {
        None => parameters_of(context.table.item(text)),
        Some(_) => None,
    }
}
