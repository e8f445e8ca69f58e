//! What the items are where behaviours name them.

ghost use Rattle.std.specs.Prelude.{◌≡◌, map, Some, IfOk};
ghost use Rattle.vg_ast.specs.declared.parameter.Parameter.{Parameter as ParameterOf};
ghost use Rattle.vg_inline.specs.Context.{items_of};
ghost use Rattle.vg_type.specs.Item.{first_type, index_type, setting_by};
ghost use Rattle.vg_type.specs.Scope.{item_sort as sort_of_item, signature_of, type_in as type_declared};
ghost use Rattle.vg_type.specs.Setting.{globals_in};
ghost use Rattle.vg_type.specs.Setting.{setting_in};
ghost use Rattle.vg_tree.specs.Resource.{is_counter as is_counter_item, is_register as is_register_item, resource_of as resource_by, resources_of, result_type, typed_sort as type_in_sort, with_register};

use crate::formats::{memory_number, work_out_formats};
use crate::machine::Machine;
use crate::operators::typed_sort;
use crate::resource::Resource;
use sqlite_items::Items;
use std::alloc::{AllocError, Global};
use vg_ast::{Item, Parameter};
use vg_inline::Context;
use vg_isa::RegId;
use vg_type::{Setting, ValueType, item_sort, type_in};

/// The type of the first parameter.
fn first_type(parameters: &[Parameter], context: &Context) -> Option<ValueType>
    ensures { result ≡ first_type (map (λ (p : ParameterOf). type_declared (globals_in context.now) p.declared) parameters.now) }
{
    match parameters {
        [] => None,
        [parameter, ..] => type_in(&parameter.declared, context),
    }
}

/// The type of what an item takes first.
fn taken(item: &Item, context: &Context) -> Option<ValueType>
    ensures { result ≡ index_type (signature_of (globals_in context.now) (Some item.now)) }
{
    match item {
        Item::Function { parameters, .. } => first_type(parameters.as_slice(), context),
        Item::RegisterFile { index, .. } => type_in(index, context),
        _ => None,
    }
}

/// The type of what an item gives.
fn given(item: &Item, context: &Context) -> Option<ValueType>
    ensures { result ≡ result_type (signature_of (globals_in context.now) (Some item.now)) }
{
    match item {
        Item::Function { result, .. } => type_in(result, context),
        Item::RegisterFile { declared, .. } => type_in(declared, context),
        _ => None,
    }
}

/// The type of an item that is named by itself.
fn single(item: &Item, context: &Context) -> Option<ValueType>
    ensures { result ≡ type_in_sort (sort_of_item (globals_in context.now) (Some item.now)) }
{
    typed_sort(item_sort(Some(item), context))
}

fn is_counter(item: &Item) -> bool
    ensures { result ≡ is_counter_item (Some item.now) }
{
    match item {
        Item::ProgramCounter { .. } => true,
        _ => false,
    }
}

fn is_register(item: &Item) -> bool
    ensures { result ≡ is_register_item item.now }
{
    match item {
        Item::Register { .. } | Item::RegisterFile { .. } => true,
        _ => false,
    }
}

/// An item behind so many registers.
fn resource_of(item: &Item, registers: u32, context: &Context) -> Resource
    ensures { result ≡ resource_by (setting_by (items_of context.now) (globals_in context.now)) registers item.now }
{
    Resource {
        id: RegId(registers),
        is_counter: is_counter(item),
        single: single(item, context),
        index: taken(item, context),
        gives: given(item, context),
    }
}

/// How many registers there are with this item. So many that they have no numbers wouldn't fit memory.
fn counted(item: &Item, registers: u32) -> Result<u32, AllocError>
    ensures { IfOk result (λ more. more ≡ with_register registers item.now) }
{
    if is_register(item) {
        registers.checked_add(1).ok_or(AllocError)
    } else {
        Ok(registers)
    }
}

/// What each item is, unless memory ends.
#[tactic(auto, using(crate::proofs::ResourceLemmas::one_more))]
pub fn work_out_resources(alloc: Global, setting: &Setting) -> Result<Items<Resource>, AllocError>
    ensures { IfOk result (λ table. table ≡ resources_of (setting_in setting.now.context.now)) }
{
    let mut resources = Items::new(alloc);
    let mut registers: u32 = 0;
    for item in setting.context.table.items {
        resources.push(resource_of(item, registers, setting.context))?;
        registers = counted(item, registers)?;
    }
    Ok(resources)
}

/// The items of a setting, numbered, unless memory ends.
pub fn work_out_machine<'a>(
    alloc: Global,
    setting: &'a Setting<'a>,
) -> Result<Machine<'a>, AllocError>
    ensures { IfOk result (λ machine. machine.setting.now ≡ setting.now) }
{
    let resources = work_out_resources(alloc, setting)?;
    let formats = work_out_formats(alloc, setting.context.table.items)?;
    Ok(Machine {
        setting,
        resources,
        formats,
        memory: memory_number(setting.context.table.items),
    })
}
