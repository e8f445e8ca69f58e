//! The binary interface.

ghost use Rattle.std.specs.Prelude.{◌≡◌, true, flat_map, IfOk};
ghost use Rattle.std.specs.Option.{option_copied};
ghost use Rattle.vg_type.specs.Setting.{setting_in};
ghost use Rattle.vg_declare.specs.AbiRole.{registers_of};
ghost use Rattle.vg_processor.specs.IsaOf.{abi_of as abi_by, files_of, first_or as first_of_all};
ghost use Rattle.vg_declare.specs.Registers.{first_register as first_of_registers};
ghost use Rattle.vg_processor.specs.AbiFrom.{abi_from};
ghost use Rattle.vg_processor.specs.Held.{holds_abi};

use crate::numbering::{number_named, register_id};
use crate::role_part::RolePart;
use crate::roles::{base_of, register_of, registers_of, second_base_of};
use std::alloc::{AllocError, Global};
use vg_ast::{Register, Role};
use vg_isa::{Abi, RegId};
use vg_tree::Machine;

/// The first register of a role.
fn role_register(role: &Role) -> Option<&Register>
    ensures { option_copied result ≡ first_of_registers (registers_of role.now) }
{
    match role {
        Role::StackPointer { register, .. }
        | Role::ReturnAddress { register, .. }
        | Role::ReturnValue { register, .. } => Some(register),
        Role::Arguments { registers, .. }
        | Role::Temporaries { registers, .. }
        | Role::Saved { registers, .. } => registers.as_slice().first(),
        Role::Code { .. } | Role::Data { .. } | Role::Stack { .. } => None,
    }
}

/// The first register of roles.
fn first_register(roles: &[Role]) -> Option<&Register>
    ensures { option_copied result ≡ first_of_registers (flat_map registers_of roles.now) }
{
    for role in roles {
        if let Some(register) = role_register(role) {
            return Some(register);
        }
    }
    None
}

/// The file of the first register that roles name.
#[tactic(auto, using(crate::proofs::FileLemmas::no_file, crate::proofs::FileLemmas::some_file))]
fn file_of(roles: &[Role], machine: &Machine) -> Result<RegId, AllocError>
    ensures { IfOk result (λ it. it.0 ≡ first_of_all 0 (files_of (setting_in machine.now.setting.now.context.now) roles.now)) }
{
    match first_register(roles) {
        None => Ok(RegId(0)),
        Some(register) => {
            let number = number_named(register.file.text.as_slice(), machine.setting);
            register_id(number, machine.resources.as_slice(), machine.setting)
        }
    }
}

/// The binary interface of roles.
fn abi_by_roles(alloc: Global, roles: &[Role], machine: &Machine) -> Result<Abi, AllocError>
    requires { holds_abi (abi_from (setting_in machine.now.setting.now.context.now) roles.now) ≡ true }
    ensures { IfOk result (λ it. it ≡ abi_from (setting_in machine.now.setting.now.context.now) roles.now) }
{
    let setting = machine.setting;
    Ok(Abi {
        file: file_of(roles, machine)?,
        stack_pointer: register_of(alloc, roles, RolePart::StackPointer, setting)?,
        return_address: register_of(alloc, roles, RolePart::ReturnAddress, setting)?,
        return_value: register_of(alloc, roles, RolePart::ReturnValue, setting)?,
        arguments: registers_of(alloc, roles, RolePart::Arguments, setting)?,
        temporaries: registers_of(alloc, roles, RolePart::Temporaries, setting)?,
        saved: registers_of(alloc, roles, RolePart::Saved, setting)?,
        code_base: base_of(alloc, roles, RolePart::Code, setting)?,
        data_base: base_of(alloc, roles, RolePart::Data, setting)?,
        low: base_of(alloc, roles, RolePart::Stack, setting)?,
        high: second_base_of(alloc, roles, RolePart::Stack, setting)?,
    })
}

/// The binary interface of a description.
#[tactic(auto, using(crate::proofs::AbiLemmas::abi_is))]
pub fn abi_of(alloc: Global, abi: &vg_ast::Abi, machine: &Machine) -> Result<Abi, AllocError>
    requires { holds_abi (abi_from (setting_in machine.now.setting.now.context.now) abi.now.roles) ≡ true }
    ensures { IfOk result (λ it. it ≡ abi_by (setting_in machine.now.setting.now.context.now) abi.now) }
{
    let interface = abi_by_roles(alloc, abi.roles.as_slice(), machine)?;
    Ok(interface)
}
