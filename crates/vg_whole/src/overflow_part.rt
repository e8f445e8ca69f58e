#![tactic(auto, using(vg_names::proofs::FirstLemmas::first_steps))]

ghost use Rattle.std.specs.Prelude.{◌≡◌};
ghost use Rattle.vg_names.specs.First.{first_of};
ghost use Rattle.vg_names.specs.Unknown.{in_each};
ghost use Rattle.vg_whole.specs.Overflow.{register_overflows, role_overflows, abi_overflows};
ghost use Rattle.vg_whole.specs.Worths.{constants_by};

use crate::Worth;
use crate::overflow_expression::global;
use vg_ast::{Abi, Register, Role};
use vg_names::Table;

/// The first operator of registers that leaves the whole numbers.
fn registers(registers: &[Register], table: &Table, worths: &[Worth]) -> Option<usize>
    ensures { result ≡ first_of (in_each (register_overflows (constants_by table.now.items.now worths.now)) registers.now) }
{
    for register in registers {
        if let Some(at) = global(register.index.get(), table, worths) {
            return Some(at);
        }
    }
    None
}

fn role(role: &Role, table: &Table, worths: &[Worth]) -> Option<usize>
    ensures { result ≡ first_of (role_overflows (constants_by table.now.items.now worths.now) role.now) }
{
    match role {
        Role::StackPointer { register, .. }
        | Role::ReturnAddress { register, .. }
        | Role::ReturnValue { register, .. } => global(register.index.get(), table, worths),
        Role::Arguments {
            registers: named,
            ..
        }
        | Role::Temporaries {
            registers: named,
            ..
        }
        | Role::Saved {
            registers: named,
            ..
        } => registers(named.as_slice(), table, worths),
        Role::Code { base, .. } | Role::Data { base, .. } => global(base.get(), table, worths),
        Role::Stack { low, high, .. } => {
            global(low.get(), table, worths).or(global(high.get(), table, worths))
        }
    }
}

/// The first operator of the roles of an application binary interface.
fn roles(roles: &[Role], table: &Table, worths: &[Worth]) -> Option<usize>
    ensures { result ≡ first_of (in_each (role_overflows (constants_by table.now.items.now worths.now)) roles.now) }
{
    for one in roles {
        if let Some(at) = role(one, table, worths) {
            return Some(at);
        }
    }
    None
}

/// The first operator of the application binary interface, if there is one.
pub fn abi(abi: &Option<Abi>, table: &Table, worths: &[Worth]) -> Option<usize>
    ensures { result ≡ first_of (abi_overflows (constants_by table.now.items.now worths.now) abi.now) }
{
    match abi {
        None => None,
        Some(abi) => roles(abi.roles.as_slice(), table, worths),
    }
}
