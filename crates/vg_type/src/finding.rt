//! What inner names are.

ghost use Rattle.std.specs.Prelude.{◌≡◌, map, slice_get};
ghost use Rattle.std.specs.Str.{bytes_eq};
ghost use Rattle.vg_ast.specs.declared.field.Field.{Field as FieldOf};
ghost use Rattle.vg_inline.specs.Context.{constants_in, items_of};
ghost use Rattle.vg_whole.specs.Whole.{inner_of, or_else};
ghost use Rattle.vg_type.specs.ValueType.{sort_of_type as sort_of};
ghost use Rattle.vg_type.specs.Setting.{globals_in, scope_in, sorts_of};
ghost use Rattle.vg_type.specs.Scope.{field_type as field_type_of, field_sorts, parameter_sorts};

use crate::Sort;
use crate::declaring::type_in;
use crate::fields::field_type;
use crate::looking::global;
use crate::names::Names;
use crate::sort::sort_of_type;
use vg_ast::{Field, Item, Name, Parameter};
use vg_inline::Context;

fn is_named(name: &Name, text: &[char]) -> bool
    ensures { result ≡ bytes_eq name.now.text text.now }
{
    name.text.as_slice() == text
}

/// What the first field of a name is.
fn field_named(fields: &[Field], text: &[char], context: &Context) -> Option<Sort>
    ensures { result ≡ inner_of (map (λ (field : FieldOf). (field.name.text, sort_of (field_type_of (constants_in context.now) field))) fields.now) text.now }
{
    for field in fields {
        if is_named(&field.name, text) {
            return Some(sort_of_type(field_type(field, context)));
        }
    }
    None
}

/// What the first parameter of a name is.
fn parameter_named(parameters: &[Parameter], text: &[char], context: &Context) -> Option<Sort>
    ensures { result ≡ inner_of (parameter_sorts (globals_in context.now) parameters.now) text.now }
{
    for parameter in parameters {
        if is_named(&parameter.name, text) {
            return Some(sort_of_type(type_in(&parameter.declared, context)));
        }
    }
    None
}

/// What the first field of a name is in the format of a number.
fn field_of(format: usize, text: &[char], context: &Context) -> Option<Sort>
    ensures { result ≡ inner_of (field_sorts (constants_in context.now) (slice_get (items_of context.now) format)) text.now }
{
    match context.table.items.get(format) {
        Some(Item::Format { fields, .. }) => field_named(fields.as_slice(), text, context),
        _ => None,
    }
}

/// What an inner name is; None where a name is none of them.
pub fn find(text: &[char], names: &Names, context: &Context) -> Option<Sort>
    ensures { result ≡ inner_of (sorts_of context.now names.now) text.now }
{
    match names {
        Names::Nothing => None,
        Names::Fields(format) => field_of(*format, text, context),
        Names::Parameters(parameters) => parameter_named(parameters, text, context),
        Names::Let { name, sort, outer } => {
            if name.text.as_slice() == text {
                Some(*sort)
            } else {
                find(text, outer, context)
            }
        }
    }
}

/// What a name is as a value.
pub fn named(text: &[char], names: &Names, context: &Context) -> Sort
    ensures { result ≡ or_else (inner_of (sorts_of context.now names.now) text.now) ((scope_in context.now).value text.now) }
{
    match find(text, names, context) {
        None => global(text, context),
        Some(sort) => sort,
    }
}
