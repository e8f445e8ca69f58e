//! The first places in the items of a description, in its binary interface, and in the whole.

ghost use Rattle.std.specs.Prelude.{◌≡◌};
ghost use Rattle.vg_ast.specs.declared.parameter.Parameter.{Parameter as ParameterOf};
ghost use Rattle.vg_inline.specs.Context.{constants_in, items_of};
ghost use Rattle.vg_names.specs.Definition.{item_named};
ghost use Rattle.vg_names.specs.First.{first_of};
ghost use Rattle.vg_type.specs.Faults.{of_any, of_each};
ghost use Rattle.vg_type.specs.FirstPlaces.{first_places};
ghost use Rattle.vg_type.specs.Item.{setting_of, in_type as faults_in_type, function_faults, file_faults, item_faults, wrong_widths, wrong_ranges, number_at as faults_at};
ghost use Rattle.vg_type.specs.Scope.{field_sorts};
ghost use Rattle.vg_type.specs.Setting.{scope_in, setting_in, sorts_of};
ghost use Rattle.vg_type.specs.Statement.{statement_faults};

use crate::ValueType;
use crate::declared_types::{counter, format, in_type, index, memory, no_bool};
use crate::declaring::type_in;
use crate::first_places::FirstPlaces;
use crate::interface::abi;
use crate::judging::judged;
use crate::names::Names;
use crate::numbers::{fields, fixes, number, number_at, parts};
use crate::places::{at_type, earlier, nowhere};
use crate::setting::Setting;
use crate::stating::statement;
use sqlite_items::Boxed;
use vg_ast::{Desc, Expr, Item, Name, Parameter, Statement, TypeExpr};

/// The first places in the types of parameters.
fn parameters(parameters: &[Parameter], setting: &Setting) -> FirstPlaces
    ensures { result ≡ first_places (of_each (λ (parameter : ParameterOf). faults_in_type (scope_in setting.now.context.now) parameter.declared) parameters.now) }
{
    let mut places = nowhere();
    for one in parameters {
        places = earlier(places, in_type(&one.declared, setting));
    }
    places
}

fn function(
    taken: &[Parameter],
    given: &TypeExpr<Boxed<Expr>>,
    body: &Expr,
    setting: &Setting,
) -> FirstPlaces
    ensures { result ≡ first_places (function_faults (setting_in setting.now.context.now) taken.now given.now body.now) }
{
    let has = type_in(given, setting.context);
    let found = judged(body, &Names::Parameters(taken), setting);
    earlier(
        parameters(taken, setting),
        earlier(in_type(given, setting), at_type(has, found)),
    )
}

fn constant_index(
    has: Option<ValueType>,
    constant: &Option<Boxed<Expr>>,
    setting: &Setting,
) -> FirstPlaces
    ensures { result ≡ first_places (of_any (faults_at (scope_in setting.now.context.now) has) constant.now) }
{
    match constant {
        None => nowhere(),
        Some(constant) => number_at(has, constant.get(), setting),
    }
}

fn file(
    indices: &TypeExpr<Boxed<Expr>>,
    given: &TypeExpr<Boxed<Expr>>,
    constant: &Option<Boxed<Expr>>,
    setting: &Setting,
) -> FirstPlaces
    ensures { result ≡ first_places (file_faults (setting_in setting.now.context.now) indices.now given.now constant.now) }
{
    let has = type_in(indices, setting.context);
    earlier(
        index(indices, setting),
        earlier(
            no_bool(given, setting),
            constant_index(has, constant, setting),
        ),
    )
}

/// The inner names of instructions of the format of a name: its fields.
#[tactic(auto, using(crate::proofs::SettingLemmas::fields_missing, crate::proofs::SettingLemmas::fields_found))]
pub fn fields_in(format: &Name, setting: &Setting) -> Names<'static>
    ensures { let x = setting.now.context.now in sorts_of x result ≡ field_sorts (constants_in x) (item_named (items_of x) format.now.text) }
{
    match setting.context.table.number(format.text.as_slice()) {
        None => Names::Nothing,
        Some(number) => Names::Fields(number),
    }
}

fn instruction(format: &Name, behaviour: &Statement, setting: &Setting) -> FirstPlaces
    ensures { let x = setting.now.context.now in result ≡ first_places (statement_faults (scope_in x) behaviour.now (field_sorts (constants_in x) (item_named (items_of x) format.now.text))) }
{
    let names = fields_in(format, setting);
    statement(behaviour, &names, setting)
}

fn item(item: &Item, setting: &Setting) -> FirstPlaces
    ensures { result ≡ first_places (item_faults (setting_in setting.now.context.now) item.now) }
{
    match item {
        Item::Constant { value, .. } => number(value.get(), setting),
        Item::Using { meaning, .. } => in_type(meaning, setting),
        Item::Function {
            parameters: taken,
            result,
            body,
            ..
        } => function(taken.as_slice(), result, body.get(), setting),
        Item::ProgramCounter { declared, .. } => counter(declared, setting),
        Item::Memory { address, cell, .. } => memory(address, cell, setting),
        Item::Register { declared, .. } => no_bool(declared, setting),
        Item::RegisterFile {
            index: indices,
            declared,
            zero,
            ..
        } => file(indices, declared, zero, setting),
        Item::Format {
            declared,
            fields: named,
            ..
        } => earlier(format(declared, setting), fields(named.as_slice(), setting)),
        Item::Instruction {
            format: of,
            behaviour,
            ..
        } => instruction(of, behaviour.get(), setting),
        Item::Encoding { fixes: fixed, .. } => fixes(fixed.as_slice(), setting),
        Item::Assembly { parts: row, .. } => parts(row.as_slice(), setting),
    }
}

fn items(all: &[Item], setting: &Setting) -> FirstPlaces
    ensures { result ≡ first_places (of_each (item_faults (setting_in setting.now.context.now)) all.now) }
{
    let mut places = nowhere();
    for one in all {
        places = earlier(places, item(one, setting));
    }
    places
}

/// The first places at which a description breaks the rules of types and of ranges, in the order of the text; None where it
/// keeps them. The setting is one of its items.
pub fn first_faults(description: &Desc, setting: &Setting) -> FirstPlaces
    requires { setting_in setting.now.context.now ≡ setting_of description.now.items }
    ensures widths { result.width ≡ first_of (wrong_widths description.now) }
    ensures ranges { result.range ≡ first_of (wrong_ranges description.now) }
{
    earlier(
        items(setting.context.table.items, setting),
        abi(&description.abi, setting),
    )
}
