//! The numbers that roles of the binary interface name.

ghost use Rattle.std.specs.Prelude.{◌≡◌, ◌++◌, true, map, IfOk, OnOk};
ghost use Rattle.std.specs.List.{list_all};
ghost use Rattle.vg_type.specs.Setting.{setting_in};
ghost use Rattle.vg_declare.specs.AbiRole.{index_of as index_in};
ghost use Rattle.vg_processor.specs.IsaOf.{first_or as first_of_all, second_or as second_of_all};
ghost use Rattle.vg_processor.specs.Held.{is_byte, is_long};
ghost use Rattle.vg_processor.specs.RoleNumbers.{numbers_by, numbers_in};

use crate::narrow::{byte_of, long_of};
use crate::role_part::RolePart;
use crate::worth::number_of;
use sqlite_items::Items;
use std::alloc::{AllocError, Global};
use vg_ast::{Register, Role};
use vg_type::Setting;

fn index_of(register: &Register, setting: &Setting) -> u128
    ensures { result ≡ index_in (setting_in setting.now.context.now) register.now }
{
    number_of(register.index.get(), setting)
}

/// Puts the indices of registers behind these.
fn push_all(
    all: &mut Vec<u128>,
    registers: &[Register],
    setting: &Setting,
) -> Result<(), AllocError>
    ensures { OnOk result (all.new.items ≡ all.old.items ++ map (index_in (setting_in setting.now.context.now)) registers.now) }
{
    for register in registers {
        all.push(index_of(register, setting))?;
    }
    Ok(())
}

/// Puts what a role names behind these.
fn push_role(
    all: &mut Vec<u128>,
    role: &Role,
    which: RolePart,
    setting: &Setting,
) -> Result<(), AllocError>
    ensures { OnOk result (all.new.items ≡ all.old.items ++ numbers_by (setting_in setting.now.context.now) which role.now) }
{
    match (which, role) {
        (RolePart::StackPointer, Role::StackPointer { register, .. })
        | (RolePart::ReturnAddress, Role::ReturnAddress { register, .. })
        | (RolePart::ReturnValue, Role::ReturnValue { register, .. }) => {
            all.push(index_of(register, setting))?;
            Ok(())
        }
        (RolePart::Arguments, Role::Arguments { registers, .. })
        | (RolePart::Temporaries, Role::Temporaries { registers, .. })
        | (RolePart::Saved, Role::Saved { registers, .. }) => {
            push_all(all, registers.as_slice(), setting)
        }
        (RolePart::Code, Role::Code { base, .. }) | (RolePart::Data, Role::Data { base, .. }) => {
            all.push(number_of(base.get(), setting))?;
            Ok(())
        }
        (RolePart::Stack, Role::Stack { low, high, .. }) => {
            all.push(number_of(low.get(), setting))?;
            all.push(number_of(high.get(), setting))?;
            Ok(())
        }
        _ => Ok(()),
    }
}

/// What roles name.
#[tactic(auto, using(crate::proofs::LoopLemmas::each_more))]
fn numbers_of(
    alloc: Global,
    roles: &[Role],
    which: RolePart,
    setting: &Setting,
) -> Result<Vec<u128>, AllocError>
    ensures { IfOk result (λ it. it.items ≡ numbers_in (setting_in setting.now.context.now) which roles.now) }
{
    let mut all = Vec::new(alloc);
    for role in roles {
        push_role(&mut all, role, which, setting)?;
    }
    Ok(all)
}

fn first_or_zero(numbers: &[u128]) -> u128
    ensures { result ≡ first_of_all 0 numbers.now }
{
    match numbers {
        [] => 0,
        [number, ..] => *number,
    }
}

fn second_or_zero(numbers: &[u128]) -> u128
    ensures { result ≡ second_of_all 0 numbers.now }
{
    match numbers {
        [] => 0,
        [_, more @ ..] => first_or_zero(more),
    }
}

/// The first register that roles name.
pub(crate) fn register_of(
    alloc: Global,
    roles: &[Role],
    which: RolePart,
    setting: &Setting,
) -> Result<u8, AllocError>
    requires { is_byte (first_of_all 0 (numbers_in (setting_in setting.now.context.now) which roles.now)) ≡ true }
    ensures { IfOk result (λ it. it ≡ first_of_all 0 (numbers_in (setting_in setting.now.context.now) which roles.now)) }
{
    let numbers = numbers_of(alloc, roles, which, setting)?;
    Ok(byte_of(first_or_zero(&numbers)))
}

fn bytes_of(alloc: Global, numbers: &[u128]) -> Result<Items<u8>, AllocError>
    requires { list_all is_byte numbers.now ≡ true }
    ensures { IfOk result (λ it. it ≡ numbers.now) }
{
    let mut bytes = Items::new(alloc);
    for number in numbers {
        bytes.push(byte_of(*number))?;
    }
    Ok(bytes)
}

/// The registers that roles name.
pub(crate) fn registers_of(
    alloc: Global,
    roles: &[Role],
    which: RolePart,
    setting: &Setting,
) -> Result<Items<u8>, AllocError>
    requires { list_all is_byte (numbers_in (setting_in setting.now.context.now) which roles.now) ≡ true }
    ensures { IfOk result (λ it. it ≡ numbers_in (setting_in setting.now.context.now) which roles.now) }
{
    let numbers = numbers_of(alloc, roles, which, setting)?;
    bytes_of(alloc, &numbers)
}

/// The first address that roles name.
pub(crate) fn base_of(
    alloc: Global,
    roles: &[Role],
    which: RolePart,
    setting: &Setting,
) -> Result<u64, AllocError>
    requires { is_long (first_of_all 0 (numbers_in (setting_in setting.now.context.now) which roles.now)) ≡ true }
    ensures { IfOk result (λ it. it ≡ first_of_all 0 (numbers_in (setting_in setting.now.context.now) which roles.now)) }
{
    let numbers = numbers_of(alloc, roles, which, setting)?;
    Ok(long_of(first_or_zero(&numbers)))
}

/// The second address that roles name.
pub(crate) fn second_base_of(
    alloc: Global,
    roles: &[Role],
    which: RolePart,
    setting: &Setting,
) -> Result<u64, AllocError>
    requires { is_long (second_of_all 0 (numbers_in (setting_in setting.now.context.now) which roles.now)) ≡ true }
    ensures { IfOk result (λ it. it ≡ second_of_all 0 (numbers_in (setting_in setting.now.context.now) which roles.now)) }
{
    let numbers = numbers_of(alloc, roles, which, setting)?;
    Ok(long_of(second_or_zero(&numbers)))
}
