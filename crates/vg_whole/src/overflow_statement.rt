ghost use Rattle.std.specs.Prelude.{◌≡◌, map};
ghost use Rattle.vg_names.specs.First.{first_of};
ghost use Rattle.vg_whole.specs.Overflow.{all_of, goal_overflows, statement_overflows};
ghost use Rattle.vg_whole.specs.Bindings.{inner_worths};
ghost use Rattle.vg_whole.specs.Worths.{constants_by};

use crate::Worth;
use crate::bindings::Bindings;
use crate::judging::judged;
use crate::overflow_expression::expression;
use vg_ast::{Goal, Statement};
use vg_names::Table;

/// The first operator of what a statement writes that leaves the whole numbers.
#[tactic(auto, using(vg_names::proofs::FirstLemmas::first_steps))]
fn goal(goal: &Goal, bindings: &Bindings, table: &Table, worths: &[Worth]) -> Option<usize>
    ensures { result ≡ first_of (goal_overflows (constants_by table.now.items.now worths.now) goal.now (inner_worths table.now.items.now bindings.now)) }
{
    match goal {
        Goal::Name(_) => None,
        Goal::Indexed { index, .. } => expression(index.get(), bindings, table, worths),
        Goal::Access { size, address, .. } => expression(size.get(), bindings, table, worths).or(
            expression(address.get(), bindings, table, worths),
        ),
    }
}

/// The first operator of a statement.
#[cycle(statement)]
#[tactic(auto, using(crate::proofs::StatementLemmas::statement_steps))]
pub fn statement(
    s: &Statement,
    bindings: &Bindings,
    table: &Table,
    worths: &[Worth],
) -> Option<usize>
    ensures { result ≡ first_of (statement_overflows (constants_by table.now.items.now worths.now) s.now (inner_worths table.now.items.now bindings.now)) }
{
    match s {
        Statement::Block {
            statements: body,
            ..
        } => statements(body.as_slice(), bindings, table, worths),
        Statement::Let {
            name,
            bound,
            body,
            ..
        } => {
            let bound = judged(bound.get(), bindings, table, worths);
            let within = Bindings::Let {
                name,
                worth: bound.worth,
                outer: &*bindings,
            };
            bound
                .place
                .or(statement(body.get(), &within, table, worths))
        }
        Statement::If {
            condition,
            then,
            otherwise: None,
            ..
        } => expression(condition.get(), bindings, table, worths).or(statement(
            then.get(),
            bindings,
            table,
            worths,
        )),
        Statement::If {
            condition,
            then,
            otherwise: Some(otherwise),
            ..
        } => expression(condition.get(), bindings, table, worths)
            .or(statement(then.get(), bindings, table, worths))
            .or(statement(otherwise.get(), bindings, table, worths)),
        Statement::Assign {
            goal: written,
            value,
        } => goal(written, bindings, table, worths).or(expression(
            value.get(),
            bindings,
            table,
            worths,
        )),
    }
}

/// The first operator of the statements of a block.
#[cycle(statement)]
#[tactic(auto, using(vg_names::proofs::FirstLemmas::first_steps))]
fn statements(
    body: &[Statement],
    bindings: &Bindings,
    table: &Table,
    worths: &[Worth],
) -> Option<usize>
    ensures { result ≡ first_of (all_of (map (statement_overflows (constants_by table.now.items.now worths.now)) body.now) (inner_worths table.now.items.now bindings.now)) }
{
    for one in body {
        if let Some(at) = statement(one, bindings, table, worths) {
            return Some(at);
        }
    }
    None
}
