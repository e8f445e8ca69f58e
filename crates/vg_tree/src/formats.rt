//! Formats: their numbers, and what their fields are.

ghost use Rattle.std.specs.Prelude.{◌≡◌, ◌<◌, map, length, slice_get, Some, IfOk};
ghost use Rattle.std.specs.Option.{option_copied};
ghost use Rattle.vg_ast.specs.declared.field.Field.{Field as FieldOf};
ghost use Rattle.vg_inline.specs.Context.{constants_in};
ghost use Rattle.vg_type.specs.Scope.{field_type as field_type_of};
ghost use Rattle.vg_type.specs.ValueType.{sort_of_type as sort_of};
ghost use Rattle.vg_type.specs.Setting.{setting_in};
ghost use Rattle.vg_tree.specs.Fields.{format_given, sorts_given, sorts_in};
ghost use Rattle.vg_tree.specs.Resource.{first_from, formats_of, is_format as is_format_item, is_memory as is_memory_item, memory_number as number_of_memory, with_format};

use crate::machine::Machine;
use sqlite_items::Items;
use std::alloc::{AllocError, Global};
use vg_ast::{Field, Item};
use vg_inline::Context;
use vg_isa::FormatId;
use vg_type::{Sort, field_type, sort_of_type};

fn is_format(item: &Item) -> bool
    ensures { result ≡ is_format_item item.now }
{
    match item {
        Item::Format { .. } => true,
        _ => false,
    }
}

/// How many formats there are with this item. So many that they have no numbers wouldn't fit memory.
fn counted(item: &Item, formats: u32) -> Result<u32, AllocError>
    ensures { IfOk result (λ more. more ≡ with_format formats item.now) }
{
    if is_format(item) {
        formats.checked_add(1).ok_or(AllocError)
    } else {
        Ok(formats)
    }
}

/// How many formats stand before each item.
pub(crate) fn work_out_formats(alloc: Global, items: &[Item]) -> Result<Items<FormatId>, AllocError>
    ensures { IfOk result (λ table. table ≡ formats_of items.now) }
{
    let mut table = Items::new(alloc);
    let mut formats: u32 = 0;
    for item in items {
        table.push(FormatId(formats))?;
        formats = counted(item, formats)?;
    }
    Ok(table)
}

/// What the fields of a format are.
fn sorts_of(alloc: Global, fields: &[Field], context: &Context) -> Result<Items<Sort>, AllocError>
    ensures { IfOk result (λ sorts. sorts ≡ map (λ (field : FieldOf). sort_of (field_type_of (constants_in context.now) field)) fields.now) }
{
    let mut sorts = Items::new(alloc);
    for field in fields {
        sorts.push(sort_of_type(field_type(field, context)))?;
    }
    Ok(sorts)
}

/// What the fields of an item are, where it is a format.
#[tactic(auto, using(crate::proofs::FormatLemmas::sorts_of_fields))]
fn sorts_of_item(alloc: Global, item: &Item, context: &Context) -> Result<Items<Sort>, AllocError>
    ensures { IfOk result (λ sorts. sorts ≡ sorts_in (constants_in context.now) (Some item.now)) }
{
    match item {
        Item::Format { fields, .. } => sorts_of(alloc, fields.as_slice(), context),
        _ => Ok(Items::new(alloc)),
    }
}

fn sorts_found(
    alloc: Global,
    item: Option<&Item>,
    context: &Context,
) -> Result<Items<Sort>, AllocError>
    ensures { IfOk result (λ sorts. sorts ≡ sorts_in (constants_in context.now) (option_copied item.entry)) }
{
    match item {
        None => Ok(Items::new(alloc)),
        Some(item) => sorts_of_item(alloc, item, context),
    }
}

/// What the fields of the format of a name are.
pub fn work_out_fields(
    alloc: Global,
    name: &[char],
    context: &Context,
) -> Result<Items<Sort>, AllocError>
    ensures { IfOk result (λ sorts. sorts ≡ sorts_given (setting_in context.now) name.now) }
{
    sorts_found(alloc, context.table.item(name), context)
}

fn is_memory(item: &Item) -> bool
    ensures { result ≡ is_memory_item (Some item.now) }
{
    match item {
        Item::Memory { .. } => true,
        _ => false,
    }
}

/// The number of the first memory, and 0 where there is none.
pub(crate) fn memory_number(items: &[Item]) -> usize
    ensures { result ≡ number_of_memory items.now }
{
    for (k, item) in items.iter().enumerate() {
        if is_memory(item) {
            return k;
        }
    }
    0
}

/// The entry of a number.
fn format_at(formats: &[FormatId], number: usize) -> FormatId
    requires { number < length formats.now }
    ensures { slice_get formats.now number ≡ Some result }
{
    match formats.get(number) {
        None => unreachable!(),
        Some(format) => *format,
    }
}

/// The number of the format of a name.
#[tactic(auto, using(crate::proofs::FormatLemmas::format_steps))]
pub(crate) fn format_number(name: &[char], machine: &Machine) -> FormatId
    ensures { result.0 ≡ format_given (setting_in machine.now.setting.now.context.now) name.now }
{
    match machine.setting.context.table.number(name) {
        None => FormatId(0),
        Some(number) => format_at(machine.formats.as_slice(), number),
    }
}
