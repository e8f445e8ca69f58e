//! Registers and resources by the numbers of their items.

ghost use Rattle.std.specs.Prelude.{◌≡◌, length, slice_get, IfOk};
ghost use Rattle.std.specs.Option.{option_copied};
ghost use Rattle.vg_inline.specs.Inline.{number_or};
ghost use Rattle.vg_inline.specs.Context.{items_of};
ghost use Rattle.vg_names.specs.Numbers.{number_named as number_by};
ghost use Rattle.vg_type.specs.Setting.{setting_in};
ghost use Rattle.vg_tree.specs.Resource.{count_before, is_memory as is_memory_item, is_register as is_register_item, register_id as register_by, resource_id as resource_by, resources_of, with_register};

use std::alloc::AllocError;
use vg_ast::Item;
use vg_isa::{RegId, ResourceId};
use vg_tree::Resource;
use vg_type::Setting;

/// The number of the item of a name, 0 where there is none.
pub(crate) fn number_named(text: &[char], setting: &Setting) -> usize
    ensures { result ≡ number_or (number_by (items_of setting.now.context.now) text.now) }
{
    match setting.context.table.number(text) {
        None => 0,
        Some(number) => number,
    }
}

fn is_register(item: &Item) -> bool
    ensures { result ≡ is_register_item item.now }
{
    match item {
        Item::Register { .. } | Item::RegisterFile { .. } => true,
        _ => false,
    }
}

/// How many registers there are with this item. So many that they have no numbers wouldn't fit memory.
fn counted(item: &Item, registers: u32) -> Result<u32, AllocError>
    ensures { IfOk result (λ more. more ≡ with_register registers item.now) }
{
    if is_register(item) {
        registers.checked_add(1).ok_or(AllocError)
    } else {
        Ok(registers)
    }
}

/// How many registers there are.
#[tactic(auto, using(crate::proofs::NumberLemmas::counted_more))]
fn all_registers(items: &[Item]) -> Result<u32, AllocError>
    ensures { IfOk result (λ it. it ≡ count_before is_register_item (length items.now) items.now) }
{
    let mut registers: u32 = 0;
    for item in items {
        registers = counted(item, registers)?;
    }
    Ok(registers)
}

/// How many registers stand in front of an item.
#[tactic(auto, using(crate::proofs::NumberLemmas::found_register, crate::proofs::NumberLemmas::missed_register))]
pub(crate) fn register_id(
    number: usize,
    resources: &[Resource],
    setting: &Setting,
) -> Result<RegId, AllocError>
    requires { resources.now ≡ resources_of (setting_in setting.now.context.now) }
    ensures { IfOk result (λ it. it.0 ≡ register_by (setting_in setting.now.context.now).all number) }
{
    match resources.get(number) {
        Some(resource) => Ok(resource.id),
        None => {
            let registers = all_registers(setting.context.table.items)?;
            Ok(RegId(registers))
        }
    }
}

fn is_memory(item: Option<&Item>) -> bool
    ensures { result ≡ is_memory_item (option_copied item.entry) }
{
    match item {
        Some(Item::Memory { .. }) => true,
        _ => false,
    }
}

/// The memory, or the register that an item declares.
pub(crate) fn resource_id(
    number: usize,
    resources: &[Resource],
    setting: &Setting,
) -> Result<ResourceId, AllocError>
    requires { resources.now ≡ resources_of (setting_in setting.now.context.now) }
    ensures { IfOk result (λ it. it ≡ resource_by (setting_in setting.now.context.now).all number) }
{
    if is_memory(setting.context.table.items.get(number)) {
        return Ok(ResourceId::Memory);
    }
    let register = register_id(number, resources, setting)?;
    Ok(ResourceId::Reg(register))
}
