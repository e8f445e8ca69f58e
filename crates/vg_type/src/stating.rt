//! The first places in statements.

ghost use Rattle.std.specs.Prelude.{◌≡◌, [], ◌∷◌};
ghost use Rattle.vg_type.specs.Expression.{judged as judged_of, call_judged, access_judged};
ghost use Rattle.vg_type.specs.Faults.{both, at_type as at_type_of, of_any, of_each};
ghost use Rattle.vg_type.specs.FirstPlaces.{first_places};
ghost use Rattle.vg_type.specs.Found.{first_found};
ghost use Rattle.vg_type.specs.Setting.{scope_in, sorts_of};
ghost use Rattle.vg_type.specs.Statement.{goal_judged, typed_sort as typed, written_type as written_type_of, statement_faults};
ghost use Rattle.vg_ast.specs.declared.statement.Statement.{Statement as StatementOf};

use crate::callee::callee_named;
use crate::calling::{both_taken, call, gives, nothing, take_one, type_asked};
use crate::first_places::FirstPlaces;
use crate::judgement::Judgement;
use crate::judging::{address_of, is_memory, judged};
use crate::looking::global;
use crate::names::Names;
use crate::operator::bytes_type;
use crate::places::{anywhere, at_condition, at_type, earlier, nowhere};
use crate::setting::Setting;
use crate::settling::access;
use crate::{Sort, ValueType};
use sqlite_items::Boxed;
use vg_ast::{Expr, Goal, Name, Statement};

/// What is found of a register of a file, or of what else is called with one argument.
fn indexed(name: &Name, index: &Expr, names: &Names, setting: &Setting) -> Judgement
    ensures { let x = setting.now.context.now in result ≡ first_found (call_judged name.now ((scope_in x).callee name.now.text) (judged_of (scope_in x) index.now (sorts_of x names.now) ∷ [])) }
{
    let callee = callee_named(name.text.as_slice(), setting.context);
    let has = type_asked(&callee, 1, 0, setting.context);
    let taking = both_taken(take_one(has, judged(index, names, setting)), nothing());
    call(name.at, &callee, 1, taking, setting.context)
}

/// What is found of bytes of memory that are written.
fn accessed(
    memory: &Name,
    at: usize,
    size: &Expr,
    address: &Expr,
    names: &Names,
    setting: &Setting,
) -> Judgement
    ensures { let x = setting.now.context.now in result ≡ first_found (access_judged (scope_in x) memory.now at (judged_of (scope_in x) size.now (sorts_of x names.now)) (judged_of (scope_in x) address.now (sorts_of x names.now))) }
{
    access(
        is_memory(memory.text.as_slice(), setting),
        address_of(setting),
        memory.at,
        at,
        judged(size, names, setting),
        judged(address, names, setting),
    )
}

/// The first places in what a statement writes.
fn goal(goal: &Goal, names: &Names, setting: &Setting) -> FirstPlaces
    ensures { let x = setting.now.context.now in result ≡ first_places (goal_judged (scope_in x) goal.now (sorts_of x names.now)) }
{
    match goal {
        Goal::Name(_) => nowhere(),
        Goal::Indexed { name, index } => anywhere(indexed(name, index.get(), names, setting)),
        Goal::Access {
            memory,
            at,
            size,
            address,
        } => anywhere(accessed(memory, *at, size.get(), address.get(), names, setting)),
    }
}

fn typed_sort(sort: Sort) -> Option<ValueType>
    ensures { result ≡ typed sort }
{
    match sort {
        Sort::Typed { has } => Some(has),
        _ => None,
    }
}

/// The type of what is written.
fn written_type(goal: &Goal, names: &Names, setting: &Setting) -> Option<ValueType>
    ensures { let x = setting.now.context.now in result ≡ written_type_of (scope_in x) goal.now (sorts_of x names.now) }
{
    match goal {
        Goal::Name(name) => typed_sort(global(name.text.as_slice(), setting.context)),
        Goal::Indexed { name, .. } => {
            let callee = callee_named(name.text.as_slice(), setting.context);
            gives(&callee, setting.context)
        }
        Goal::Access { size, .. } => bytes_type(judged(size.get(), names, setting).sort),
    }
}

/// The first places in an assignment.
fn assignment(written: &Goal, value: &Expr, names: &Names, setting: &Setting) -> FirstPlaces
    ensures { let x = setting.now.context.now in result ≡ first_places (both (goal_judged (scope_in x) written.now (sorts_of x names.now)) (at_type_of (written_type_of (scope_in x) written.now (sorts_of x names.now)) (judged_of (scope_in x) value.now (sorts_of x names.now)))) }
{
    let has = written_type(written, names, setting);
    let found = judged(value, names, setting);
    earlier(goal(written, names, setting), at_type(has, found))
}

/// The first places in a statement.
#[cycle(statement)]
pub fn statement(s: &Statement, names: &Names, setting: &Setting) -> FirstPlaces
    ensures { let x = setting.now.context.now in result ≡ first_places (statement_faults (scope_in x) s.now (sorts_of x names.now)) }
{
    match s {
        Statement::Block {
            statements: body,
            ..
        } => statements(body.as_slice(), names, setting),
        Statement::Let {
            name,
            bound,
            body,
            ..
        } => {
            let bound = judged(bound.get(), names, setting);
            let within = Names::Let {
                name,
                sort: bound.sort,
                outer: &*names,
            };
            earlier(anywhere(bound), statement(body.get(), &within, setting))
        }
        Statement::If {
            condition,
            then,
            otherwise,
            ..
        } => {
            let condition = judged(condition.get(), names, setting);
            earlier(
                at_condition(condition),
                earlier(
                    statement(then.get(), names, setting),
                    other(otherwise, names, setting),
                ),
            )
        }
        Statement::Assign {
            goal: written,
            value,
        } => assignment(written, value.get(), names, setting),
    }
}

/// The first places in a statement that may be left out.
#[cycle(statement)]
fn other(s: &Option<Boxed<Statement>>, names: &Names, setting: &Setting) -> FirstPlaces
    ensures { let x = setting.now.context.now in result ≡ first_places (of_any (λ (s : StatementOf). statement_faults (scope_in x) s (sorts_of x names.now)) s.now) }
{
    match s {
        None => nowhere(),
        Some(s) => statement(s.get(), names, setting),
    }
}

/// The first places in the statements of a block.
#[cycle(statement)]
fn statements(body: &[Statement], names: &Names, setting: &Setting) -> FirstPlaces
    ensures { let x = setting.now.context.now in result ≡ first_places (of_each (λ (s : StatementOf). statement_faults (scope_in x) s (sorts_of x names.now)) body.now) }
{
    let mut places = nowhere();
    for one in body {
        places = earlier(places, statement(one, names, setting));
    }
    places
}
