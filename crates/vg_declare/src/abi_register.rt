//! The rules on the registers of the binary interface.

ghost use Rattle.std.specs.Prelude.{◌≡◌, ◌++◌, ◌&&◌, [], ◌∷◌, not, nat_eq, map, flat_map, OnOk, IfOk};
ghost use Rattle.std.specs.List.{list_all, list_any};
ghost use Rattle.std.specs.Option.{option_copied};
ghost use Rattle.vg_ast.specs.declared.register.Register.{Register as RegisterOf};
ghost use Rattle.vg_inline.specs.Context.{items_of};
ghost use Rattle.vg_isa.specs.Same.{all_differ};
ghost use Rattle.vg_type.specs.Setting.{setting_in};
ghost use Rattle.vg_declare.specs.AbiRole.{are_of_one_file, indices, index_of as index_in, is_general as is_general_in, is_good, is_not_zero as is_no_zero, number_of as number_in, registers_differ, registers_of, same_file as are_in_one_file};
ghost use Rattle.vg_declare.specs.AbiPart.{registers_by};
ghost use Rattle.vg_declare.specs.Registers.{first_register as first_of_all, is_right as is_right_beside};

use crate::abi_part::Registers;
use indexmap::IndexSet;
use sqlite_items::Boxed;
use std::alloc::{AllocError, Global};
use vg_ast::{Expr, Item, Register, Role};
use vg_inline::{declared_type, worth_of};
use vg_tree::value_or;
use vg_type::{Setting, is_bits};

/// What an expression outside of all inner names is worth.
pub fn number_of(e: &Expr, setting: &Setting) -> u128
    ensures { result ≡ number_in (setting_in setting.now.context.now) e.now }
{
    value_or(worth_of(e, setting.context))
}

fn index_of(register: &Register, setting: &Setting) -> u128
    ensures { result ≡ index_in (setting_in setting.now.context.now) register.now }
{
    number_of(register.index.get(), setting)
}

/// Whether the constant of a register file is there and isn't this number.
fn is_not_zero(number: u128, constant: &Option<Boxed<Expr>>, setting: &Setting) -> bool
    ensures { result ≡ is_no_zero (setting_in setting.now.context.now) number constant.now }
{
    match constant {
        None => false,
        Some(constant) => number != number_of(constant.get(), setting),
    }
}

/// Whether an item is a file of registers as wide as an address, in which this one isn't always 0.
fn is_general(number: u128, item: Option<&Item>, setting: &Setting) -> bool
    ensures { result ≡ is_general_in (setting_in setting.now.context.now) number (option_copied item.entry) }
{
    match item {
        Some(Item::RegisterFile { declared, zero, .. }) => {
            is_bits(setting.width, declared_type(declared, setting.context))
                && is_not_zero(number, zero, setting)
        }
        _ => false,
    }
}

fn same_file(a: &Register, b: &Register) -> bool
    ensures { result ≡ are_in_one_file a.now b.now }
{
    a.file.text.as_slice() == b.file.text.as_slice()
}

/// Whether a register is one that a role may name, and of the same file as the first one.
fn is_right(register: &Register, first: &Register, setting: &Setting) -> bool
    ensures { result ≡ is_right_beside (setting_in setting.now.context.now) first.now register.now }
{
    let item = setting.context.table.item(register.file.text.as_slice());
    is_general(index_of(register, setting), item, setting) && same_file(first, register)
}

fn all_right(registers: &[Register], first: &Register, setting: &Setting) -> bool
    ensures { result ≡ list_all (is_right_beside (setting_in setting.now.context.now) first.now) registers.now }
{
    for register in registers {
        if !is_right(register, first, setting) {
            return false;
        }
    }
    true
}

fn is_role_right(role: &Role, first: &Register, setting: &Setting) -> bool
    ensures { result ≡ list_all (is_right_beside (setting_in setting.now.context.now) first.now) (registers_of role.now) }
{
    match role {
        Role::StackPointer { register, .. }
        | Role::ReturnAddress { register, .. }
        | Role::ReturnValue { register, .. } => is_right(register, first, setting),
        Role::Arguments { registers, .. }
        | Role::Temporaries { registers, .. }
        | Role::Saved { registers, .. } => all_right(registers.as_slice(), first, setting),
        Role::Code { .. } | Role::Data { .. } | Role::Stack { .. } => true,
    }
}

fn are_roles_right(roles: &[Role], first: &Register, setting: &Setting) -> bool
    ensures { result ≡ list_all (is_right_beside (setting_in setting.now.context.now) first.now) (flat_map registers_of roles.now) }
{
    for role in roles {
        if !is_role_right(role, first, setting) {
            return false;
        }
    }
    true
}

/// The first register of a role.
fn role_register(role: &Role) -> Option<&Register>
    ensures { option_copied result ≡ first_of_all (registers_of role.now) }
{
    match role {
        Role::StackPointer { register, .. }
        | Role::ReturnAddress { register, .. }
        | Role::ReturnValue { register, .. } => Some(register),
        Role::Arguments { registers, .. }
        | Role::Temporaries { registers, .. }
        | Role::Saved { registers, .. } => registers.as_slice().first(),
        Role::Code { .. } | Role::Data { .. } | Role::Stack { .. } => None,
    }
}

/// The first register of roles.
fn first_register(roles: &[Role]) -> Option<&Register>
    ensures { option_copied result ≡ first_of_all (flat_map registers_of roles.now) }
{
    for role in roles {
        if let Some(register) = role_register(role) {
            return Some(register);
        }
    }
    None
}

/// Whether all registers of roles are ones that a role may name, and of one file.
pub fn are_good(roles: &[Role], setting: &Setting) -> bool
    ensures { result ≡ (list_all (is_good (setting_in setting.now.context.now)) (flat_map registers_of roles.now) && are_of_one_file (flat_map registers_of roles.now)) }
{
    match first_register(roles) {
        None => true,
        Some(first) => are_roles_right(roles, first, setting),
    }
}

/// Puts the indices of registers behind these.
fn push_all(
    all: &mut Vec<u128>,
    registers: &[Register],
    setting: &Setting,
) -> Result<(), AllocError>
    ensures { OnOk result (all.new.items ≡ all.old.items ++ map (index_in (setting_in setting.now.context.now)) registers.now) }
{
    for register in registers {
        all.push(index_of(register, setting))?;
    }
    Ok(())
}

/// Puts the indices of a role's registers behind these.
fn push_role(
    all: &mut Vec<u128>,
    role: &Role,
    which: Registers,
    setting: &Setting,
) -> Result<(), AllocError>
    ensures { OnOk result (all.new.items ≡ all.old.items ++ map (index_in (setting_in setting.now.context.now)) (registers_by which role.now)) }
{
    match (which, role) {
        (
            Registers::Others,
            Role::StackPointer { register, .. } | Role::ReturnAddress { register, .. },
        )
        | (Registers::ReturnValue, Role::ReturnValue { register, .. }) => {
            all.push(index_of(register, setting))?;
            Ok(())
        }
        (Registers::Arguments, Role::Arguments { registers, .. })
        | (
            Registers::Others,
            Role::Temporaries { registers, .. } | Role::Saved { registers, .. },
        ) => { push_all(all, registers.as_slice(), setting) }
        _ => Ok(()),
    }
}

/// Puts the indices of the registers of roles behind these.
fn push_roles(
    all: &mut Vec<u128>,
    roles: &[Role],
    which: Registers,
    setting: &Setting,
) -> Result<(), AllocError>
    ensures { OnOk result (all.new.items ≡ all.old.items ++ indices (setting_in setting.now.context.now) (registers_by which) roles.now) }
{
    for role in roles {
        push_role(all, role, which, setting)?;
    }
    Ok(())
}

/// Whether no two of these numbers are the same.
fn all_differ(alloc: Global, numbers: &[u128]) -> Result<bool, AllocError>
    ensures { IfOk result (λ differ. differ ≡ all_differ nat_eq numbers.now) }
{
    let mut met = IndexSet::new(alloc);
    for number in numbers {
        if !met.insert(*number)? {
            return Ok(false);
        }
    }
    Ok(true)
}

fn is_among(number: u128, numbers: &[u128]) -> bool
    ensures { result ≡ list_any (nat_eq number) numbers.now }
{
    for other in numbers {
        if number == *other {
            return true;
        }
    }
    false
}

/// Whether none of these numbers is among the others.
fn none_among(numbers: &[u128], others: &[u128]) -> bool
    ensures { result ≡ list_all (λ k. not (list_any (nat_eq k) others.now)) numbers.now }
{
    for number in numbers {
        if is_among(*number, others) {
            return false;
        }
    }
    true
}

/// Whether the registers of roles differ, but that the return value may be one of the arguments.
pub fn registers_differ(
    alloc: Global,
    roles: &[Role],
    setting: &Setting,
) -> Result<bool, AllocError>
    ensures { IfOk result (λ differ. differ ≡ registers_differ (setting_in setting.now.context.now) roles.now) }
{
    let mut returned = Vec::new(alloc);
    push_roles(&mut returned, roles, Registers::ReturnValue, setting)?;
    let mut others = Vec::new(alloc);
    push_roles(&mut others, roles, Registers::Others, setting)?;
    if !none_among(&returned, &others) {
        return Ok(false);
    }
    let mut apart = Vec::new(alloc);
    push_roles(&mut apart, roles, Registers::Arguments, setting)?;
    push_roles(&mut apart, roles, Registers::Others, setting)?;
    all_differ(alloc, &apart)
}
