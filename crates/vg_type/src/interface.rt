//! The first places in the application binary interface.

ghost use Rattle.std.specs.Prelude.{◌≡◌};
ghost use Rattle.vg_type.specs.Faults.{of_any, of_each};
ghost use Rattle.vg_type.specs.FirstPlaces.{first_places};
ghost use Rattle.vg_type.specs.Item.{index_type as index_type_of, register_faults, role_faults, abi_faults};
ghost use Rattle.vg_type.specs.Setting.{scope_in};

use crate::ValueType;
use crate::callee::callee_named;
use crate::calling::parameter_type;
use crate::first_places::FirstPlaces;
use crate::numbers::{number, number_at};
use crate::places::{earlier, nowhere};
use crate::setting::Setting;
use vg_ast::{Abi, Register, Role};
use vg_inline::Context;

/// The type of a file's indices.
fn index_type(file: &[char], context: &Context) -> Option<ValueType>
    ensures { result ≡ index_type_of ((scope_in context.now).callee file.now) }
{
    parameter_type(&callee_named(file, context), 0, context)
}

fn register(register: &Register, setting: &Setting) -> FirstPlaces
    ensures { result ≡ first_places (register_faults (scope_in setting.now.context.now) register.now) }
{
    let has = index_type(register.file.text.as_slice(), setting.context);
    number_at(has, register.index.get(), setting)
}

fn registers(registers: &[Register], setting: &Setting) -> FirstPlaces
    ensures { result ≡ first_places (of_each (register_faults (scope_in setting.now.context.now)) registers.now) }
{
    let mut places = nowhere();
    for one in registers {
        places = earlier(places, register(one, setting));
    }
    places
}

fn role(role: &Role, setting: &Setting) -> FirstPlaces
    ensures { result ≡ first_places (role_faults (scope_in setting.now.context.now) role.now) }
{
    match role {
        Role::StackPointer { register: one, .. }
        | Role::ReturnAddress { register: one, .. }
        | Role::ReturnValue { register: one, .. } => register(one, setting),
        Role::Arguments {
            registers: named,
            ..
        }
        | Role::Temporaries {
            registers: named,
            ..
        }
        | Role::Saved {
            registers: named,
            ..
        } => registers(named.as_slice(), setting),
        Role::Code { base, .. } | Role::Data { base, .. } => number(base.get(), setting),
        Role::Stack { low, high, .. } => {
            earlier(number(low.get(), setting), number(high.get(), setting))
        }
    }
}

fn roles(roles: &[Role], setting: &Setting) -> FirstPlaces
    ensures { result ≡ first_places (of_each (role_faults (scope_in setting.now.context.now)) roles.now) }
{
    let mut places = nowhere();
    for one in roles {
        places = earlier(places, role(one, setting));
    }
    places
}

/// The first places in the application binary interface, if there is one.
pub fn abi(abi: &Option<Abi>, setting: &Setting) -> FirstPlaces
    ensures { result ≡ first_places (of_any (abi_faults (scope_in setting.now.context.now)) abi.now) }
{
    match abi {
        None => nowhere(),
        Some(abi) => roles(abi.roles.as_slice(), setting),
    }
}
