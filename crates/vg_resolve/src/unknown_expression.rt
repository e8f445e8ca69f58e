ghost use Rattle.std.specs.Prelude.{◌≡◌, map};
ghost use Rattle.vg_names.specs.First.{first_of};
ghost use Rattle.vg_names.specs.Inner.{inner_names};
ghost use Rattle.vg_names.specs.Unknown.{all_of, expression_unknowns, type_unknowns, optional_unknowns};

use crate::asked::Asked;
use crate::unknown_name::{global, value};
use sqlite_items::Boxed;
use vg_ast::{Expr, TypeExpr};
use vg_names::{Inner, Table};

/// The first unknown name of an expression.
#[cycle(expression)]
#[tactic(auto, using(crate::proofs::ExpressionLemmas::expression_steps))]
pub fn expression(e: &Expr, table: &Table, inner: &Inner) -> Option<usize>
    ensures { result ≡ first_of (expression_unknowns table.now.items.now e.now (inner_names table.now.items.now inner.now)) }
{
    match e {
        Expr::Number { .. } => None,
        Expr::Name(name) => value(name, table, inner),
        Expr::Call { name, arguments } => global(name, Asked::Callable, table, inner).or(
            expressions(arguments.as_slice(), table, inner),
        ),
        Expr::Access {
            memory,
            size,
            address,
            ..
        } => global(memory, Asked::Memory, table, inner)
            .or(expression(size.get(), table, inner))
            .or(expression(address.get(), table, inner)),
        Expr::Join { high, low, .. } => {
            expression(high.get(), table, inner).or(expression(low.get(), table, inner))
        }
        Expr::Parentheses { inner: body, .. } => expression(body.get(), table, inner),
        Expr::Unary { operand, .. } => expression(operand.get(), table, inner),
        Expr::Binary { left, right, .. } => {
            expression(left.get(), table, inner).or(expression(right.get(), table, inner))
        }
        Expr::Cast {
            operand,
            target,
            ..
        } => expression(operand.get(), table, inner).or(cast_type(target, table, inner)),
        Expr::Slice {
            operand,
            high,
            low,
            ..
        } => expression(operand.get(), table, inner)
            .or(expression(high.get(), table, inner))
            .or(expression(low.get(), table, inner)),
        Expr::If {
            condition,
            then,
            otherwise,
            ..
        } => expression(condition.get(), table, inner)
            .or(expression(then.get(), table, inner))
            .or(expression(otherwise.get(), table, inner)),
        Expr::Let {
            name,
            bound,
            body,
            ..
        } => {
            let within = Inner::Let {
                name: &*name,
                outer: &*inner,
            };
            expression(bound.get(), table, inner).or(expression(body.get(), table, &within))
        }
    }
}

/// The first unknown name of the arguments of a call.
#[cycle(expression)]
#[tactic(auto, using(vg_names::proofs::FirstLemmas::first_steps))]
fn expressions(arguments: &[Expr], table: &Table, inner: &Inner) -> Option<usize>
    ensures { result ≡ first_of (all_of (map (expression_unknowns table.now.items.now) arguments.now) (inner_names table.now.items.now inner.now)) }
{
    for argument in arguments {
        if let Some(at) = expression(argument, table, inner) {
            return Some(at);
        }
    }
    None
}

/// The first unknown name of the type of a cast.
#[cycle(expression)]
fn cast_type(target: &TypeExpr<Boxed<Expr>>, table: &Table, inner: &Inner) -> Option<usize>
    ensures { result ≡ first_of (type_unknowns table.now.items.now target.now (inner_names table.now.items.now inner.now)) }
{
    match target {
        TypeExpr::Sized { width, .. } => expression(width.get(), table, inner),
        TypeExpr::Bool { .. } => None,
        TypeExpr::Alias(name) => global(name, Asked::Alias, table, inner),
    }
}

/// The first unknown name of a type.
pub fn type_of(written: &TypeExpr<Boxed<Expr>>, table: &Table, inner: &Inner) -> Option<usize>
    ensures { result ≡ first_of (type_unknowns table.now.items.now written.now (inner_names table.now.items.now inner.now)) }
{
    match written {
        TypeExpr::Sized { width, .. } => expression(width.get(), table, inner),
        TypeExpr::Bool { .. } => None,
        TypeExpr::Alias(name) => global(name, Asked::Alias, table, inner),
    }
}

/// The first unknown name of an expression that may be left out, where there are no inner names.
pub fn optional(e: &Option<Boxed<Expr>>, table: &Table) -> Option<usize>
    ensures { result ≡ first_of (optional_unknowns table.now.items.now e.now) }
{
    match e {
        None => None,
        Some(e) => expression(e.get(), table, &Inner::Nothing),
    }
}
