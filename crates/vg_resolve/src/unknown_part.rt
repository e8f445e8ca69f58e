#![tactic(auto, using(vg_names::proofs::FirstLemmas::first_steps))]

ghost use Rattle.std.specs.Prelude.{◌≡◌};
ghost use Rattle.vg_names.specs.First.{first_of};
ghost use Rattle.vg_names.specs.Unknown.{in_each, same_architecture as same_architecture_of, register_unknowns, role_unknowns, abi_unknowns, act_unknowns, line_unknowns, micro_unknowns};

use crate::asked::Asked;
use crate::unknown_expression::expression;
use crate::unknown_name::{global, unless};
use vg_ast::{Abi, Act, Micro, MicroItem, Name, Register, Role};
use vg_names::{Inner, Table};

/// The name of the architecture that a part is for, where it is another one.
fn same_architecture(name: &Name, other: &Name) -> Option<usize>
    ensures { result ≡ first_of (same_architecture_of name.now other.now) }
{
    unless(other.text.as_slice() == name.text.as_slice(), other)
}

fn register(register: &Register, table: &Table) -> Option<usize>
    ensures { result ≡ first_of (register_unknowns table.now.items.now register.now) }
{
    global(&register.file, Asked::RegisterFile, table, &Inner::Nothing).or(expression(
        register.index.get(),
        table,
        &Inner::Nothing,
    ))
}

/// The first unknown name of registers.
fn registers(registers: &[Register], table: &Table) -> Option<usize>
    ensures { result ≡ first_of (in_each (register_unknowns table.now.items.now) registers.now) }
{
    for one in registers {
        if let Some(at) = register(one, table) {
            return Some(at);
        }
    }
    None
}

fn role(role: &Role, table: &Table) -> Option<usize>
    ensures { result ≡ first_of (role_unknowns table.now.items.now role.now) }
{
    match role {
        Role::StackPointer { register: one, .. }
        | Role::ReturnAddress { register: one, .. }
        | Role::ReturnValue { register: one, .. } => register(one, table),
        Role::Arguments {
            registers: named,
            ..
        }
        | Role::Temporaries {
            registers: named,
            ..
        }
        | Role::Saved {
            registers: named,
            ..
        } => registers(named.as_slice(), table),
        Role::Code { base, .. } | Role::Data { base, .. } => {
            expression(base.get(), table, &Inner::Nothing)
        }
        Role::Stack { low, high, .. } => expression(low.get(), table, &Inner::Nothing).or(
            expression(high.get(), table, &Inner::Nothing),
        ),
    }
}

/// The first unknown name of the roles of an application binary interface.
fn roles(roles: &[Role], table: &Table) -> Option<usize>
    ensures { result ≡ first_of (in_each (role_unknowns table.now.items.now) roles.now) }
{
    for one in roles {
        if let Some(at) = role(one, table) {
            return Some(at);
        }
    }
    None
}

/// The first unknown name of the application binary interface, if there is one.
pub fn abi(name: &Name, abi: &Option<Abi>, table: &Table) -> Option<usize>
    ensures { result ≡ first_of (abi_unknowns table.now.items.now name.now abi.now) }
{
    match abi {
        None => None,
        Some(abi) => same_architecture(name, &abi.name).or(roles(abi.roles.as_slice(), table)),
    }
}

fn act(act: &Act, table: &Table) -> Option<usize>
    ensures { result ≡ first_of (act_unknowns table.now.items.now act.now) }
{
    match act {
        Act::Read { resource, .. } | Act::Write { resource, .. } => {
            global(resource, Asked::Resource, table, &Inner::Nothing)
        }
        Act::Compute { .. } | Act::Resolve { .. } => None,
    }
}

/// The first unknown name of what a stage does.
fn acts(acts: &[Act], table: &Table) -> Option<usize>
    ensures { result ≡ first_of (in_each (act_unknowns table.now.items.now) acts.now) }
{
    for one in acts {
        if let Some(at) = act(one, table) {
            return Some(at);
        }
    }
    None
}

fn line(line: &MicroItem, table: &Table) -> Option<usize>
    ensures { result ≡ first_of (line_unknowns table.now.items.now line.now) }
{
    match line {
        MicroItem::Stage { acts: done, .. } => acts(done.as_slice(), table),
        MicroItem::Forward { resource, .. } => {
            global(resource, Asked::Resource, table, &Inner::Nothing)
        }
    }
}

/// The first unknown name of the stages and the forwards of a micro architecture.
fn lines(lines: &[MicroItem], table: &Table) -> Option<usize>
    ensures { result ≡ first_of (in_each (line_unknowns table.now.items.now) lines.now) }
{
    for one in lines {
        if let Some(at) = line(one, table) {
            return Some(at);
        }
    }
    None
}

/// The first unknown name of the micro architecture, if there is one.
pub fn micro(name: &Name, micro: &Option<Micro>, table: &Table) -> Option<usize>
    ensures { result ≡ first_of (micro_unknowns table.now.items.now name.now micro.now) }
{
    match micro {
        None => None,
        Some(micro) => same_architecture(name, &micro.name).or(lines(
            micro.items.as_slice(),
            table,
        )),
    }
}
