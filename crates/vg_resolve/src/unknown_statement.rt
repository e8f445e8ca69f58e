ghost use Rattle.std.specs.Prelude.{◌≡◌, map};
ghost use Rattle.vg_names.specs.First.{first_of};
ghost use Rattle.vg_names.specs.Inner.{inner_names};
ghost use Rattle.vg_names.specs.Unknown.{all_of, goal_unknowns, statement_unknowns};

use crate::asked::Asked;
use crate::unknown_expression::expression;
use crate::unknown_name::global;
use vg_ast::{Goal, Statement};
use vg_names::{Inner, Table};

/// The first unknown name of what a statement writes.
#[tactic(auto, using(vg_names::proofs::FirstLemmas::first_steps))]
fn goal(goal: &Goal, table: &Table, inner: &Inner) -> Option<usize>
    ensures { result ≡ first_of (goal_unknowns table.now.items.now goal.now (inner_names table.now.items.now inner.now)) }
{
    match goal {
        Goal::Name(name) => global(name, Asked::SingleGoal, table, inner),
        Goal::Indexed { name, index } => {
            global(name, Asked::RegisterFile, table, inner).or(expression(
                index.get(),
                table,
                inner,
            ))
        }
        Goal::Access {
            memory,
            size,
            address,
            ..
        } => global(memory, Asked::Memory, table, inner)
            .or(expression(size.get(), table, inner))
            .or(expression(address.get(), table, inner)),
    }
}

/// The first unknown name of a statement.
#[cycle(statement)]
#[tactic(auto, using(crate::proofs::StatementLemmas::statement_steps))]
pub fn statement(s: &Statement, table: &Table, inner: &Inner) -> Option<usize>
    ensures { result ≡ first_of (statement_unknowns table.now.items.now s.now (inner_names table.now.items.now inner.now)) }
{
    match s {
        Statement::Block {
            statements: body,
            ..
        } => statements(body.as_slice(), table, inner),
        Statement::Let {
            name,
            bound,
            body,
            ..
        } => {
            let within = Inner::Let {
                name: &*name,
                outer: &*inner,
            };
            expression(bound.get(), table, inner).or(statement(body.get(), table, &within))
        }
        Statement::If {
            condition,
            then,
            otherwise: None,
            ..
        } => expression(condition.get(), table, inner).or(statement(then.get(), table, inner)),
        Statement::If {
            condition,
            then,
            otherwise: Some(otherwise),
            ..
        } => expression(condition.get(), table, inner)
            .or(statement(then.get(), table, inner))
            .or(statement(otherwise.get(), table, inner)),
        Statement::Assign {
            goal: written,
            value,
        } => goal(written, table, inner).or(expression(value.get(), table, inner)),
    }
}

/// The first unknown name of the statements of a block.
#[cycle(statement)]
#[tactic(auto, using(vg_names::proofs::FirstLemmas::first_steps))]
fn statements(body: &[Statement], table: &Table, inner: &Inner) -> Option<usize>
    ensures { result ≡ first_of (all_of (map (statement_unknowns table.now.items.now) body.now) (inner_names table.now.items.now inner.now)) }
{
    for one in body {
        if let Some(at) = statement(one, table, inner) {
            return Some(at);
        }
    }
    None
}
