//! Trees over parts that were read, where they aren't too deep.

ghost use Rattle.std.specs.Prelude.{◌≡◌, IfOk, max};
ghost use Rattle.vg_ast.specs.Placed.{placed};
ghost use Rattle.vg_ast.specs.Operator.{operator_level, cast_level, unary_level, slice_level, primary_level};
ghost use Rattle.vg_parse_expr.specs.Lexeme.{Reads};
ghost use Rattle.vg_parse_expr.specs.Reading.{over};

use crate::infix::operator_level;
use crate::operand::{
    CAST_LEVEL, Operand, PRIMARY_LEVEL, SLICE_LEVEL, SizedType, UNARY_LEVEL, over,
};
use crate::reader::Found;
use std::alloc::Global;
use vg_ast::{BinaryOperator, Expr, Name, UnaryOperator};
use vg_tok::Token;

fn deeper(one: u8, other: u8) -> u8
    ensures { result ≡ max one other }
{
    one.max(other)
}

fn deepest(one: u8, two: u8, three: u8) -> u8
    ensures { result ≡ max one (max two three) }
{
    deeper(one, deeper(two, three))
}

pub(crate) fn access<'a>(
    alloc: Global,
    memory: Name,
    less: usize,
    size: Operand,
    address: Operand,
    rest: &'a [Token],
) -> Found<'a, Operand>
    ensures { IfOk result (λ found. Reads (λ x. (x.0, placed x.1.now)) found (over (Expr.Access memory less size.tree address.tree) primary_level (max size.depth address.depth) (placed rest.now))) }
{
    let depth = deeper(size.depth, address.depth);
    let tree = Expr::Access {
        memory,
        at: less,
        size: size.tree,
        address: address.tree,
    };
    over(alloc, tree, PRIMARY_LEVEL, depth, rest)
}

pub(crate) fn join<'a>(
    alloc: Global,
    at: usize,
    high: Operand,
    low: Operand,
    rest: &'a [Token],
) -> Found<'a, Operand>
    ensures { IfOk result (λ found. Reads (λ x. (x.0, placed x.1.now)) found (over (Expr.Join at high.tree low.tree) primary_level (max high.depth low.depth) (placed rest.now))) }
{
    let depth = deeper(high.depth, low.depth);
    let tree = Expr::Join {
        at,
        high: high.tree,
        low: low.tree,
    };
    over(alloc, tree, PRIMARY_LEVEL, depth, rest)
}

pub(crate) fn parentheses<'a>(
    alloc: Global,
    at: usize,
    inner: Operand,
    rest: &'a [Token],
) -> Found<'a, Operand>
    ensures { IfOk result (λ found. Reads (λ x. (x.0, placed x.1.now)) found (over (Expr.Parentheses at inner.tree) primary_level inner.depth (placed rest.now))) }
{
    let depth = inner.depth;
    let tree = Expr::Parentheses {
        at,
        inner: inner.tree,
    };
    over(alloc, tree, PRIMARY_LEVEL, depth, rest)
}

pub(crate) fn unary<'a>(
    alloc: Global,
    operator: UnaryOperator,
    at: usize,
    operand: Operand,
    rest: &'a [Token],
) -> Found<'a, Operand>
    ensures { IfOk result (λ found. Reads (λ x. (x.0, placed x.1.now)) found (over (Expr.Unary operator at operand.tree) unary_level operand.depth (placed rest.now))) }
{
    let depth = operand.depth;
    let tree = Expr::Unary {
        operator,
        at,
        operand: operand.tree,
    };
    over(alloc, tree, UNARY_LEVEL, depth, rest)
}

pub(crate) fn binary<'a>(
    alloc: Global,
    left: Operand,
    operator: BinaryOperator,
    at: usize,
    right: Operand,
    rest: &'a [Token],
) -> Found<'a, Operand>
    ensures { IfOk result (λ found. Reads (λ x. (x.0, placed x.1.now)) found (over (Expr.Binary operator at left.tree right.tree) (operator_level operator) (max left.depth right.depth) (placed rest.now))) }
{
    let depth = deeper(left.depth, right.depth);
    let tree = Expr::Binary {
        operator,
        at,
        left: left.tree,
        right: right.tree,
    };
    over(alloc, tree, operator_level(operator), depth, rest)
}

pub(crate) fn cast<'a>(
    alloc: Global,
    operand: Operand,
    at: usize,
    target: SizedType,
    rest: &'a [Token],
) -> Found<'a, Operand>
    ensures { IfOk result (λ found. Reads (λ x. (x.0, placed x.1.now)) found (over (Expr.Cast operand.tree at target.tree) cast_level (max operand.depth target.depth) (placed rest.now))) }
{
    let depth = deeper(operand.depth, target.depth);
    let tree = Expr::Cast {
        operand: operand.tree,
        at,
        target: target.tree,
    };
    over(alloc, tree, CAST_LEVEL, depth, rest)
}

pub(crate) fn slice<'a>(
    alloc: Global,
    operand: Operand,
    at: usize,
    high: Operand,
    low: Operand,
    rest: &'a [Token],
) -> Found<'a, Operand>
    ensures { IfOk result (λ found. Reads (λ x. (x.0, placed x.1.now)) found (over (Expr.Slice operand.tree at high.tree low.tree) slice_level (max operand.depth (max high.depth low.depth)) (placed rest.now))) }
{
    let depth = deepest(operand.depth, high.depth, low.depth);
    let tree = Expr::Slice {
        operand: operand.tree,
        at,
        high: high.tree,
        low: low.tree,
    };
    over(alloc, tree, SLICE_LEVEL, depth, rest)
}

pub(crate) fn conditional<'a>(
    alloc: Global,
    at: usize,
    condition: Operand,
    one: Operand,
    other: Operand,
    rest: &'a [Token],
) -> Found<'a, Operand>
    ensures { IfOk result (λ found. Reads (λ x. (x.0, placed x.1.now)) found (over (Expr.If at condition.tree one.tree other.tree) 0 (max condition.depth (max one.depth other.depth)) (placed rest.now))) }
{
    let depth = deepest(condition.depth, one.depth, other.depth);
    let tree = Expr::If {
        at,
        condition: condition.tree,
        then: one.tree,
        otherwise: other.tree,
    };
    over(alloc, tree, 0, depth, rest)
}

pub(crate) fn binding<'a>(
    alloc: Global,
    at: usize,
    name: Name,
    bound: Operand,
    body: Operand,
    rest: &'a [Token],
) -> Found<'a, Operand>
    ensures { IfOk result (λ found. Reads (λ x. (x.0, placed x.1.now)) found (over (Expr.Let at name bound.tree body.tree) 0 (max bound.depth body.depth) (placed rest.now))) }
{
    let depth = deeper(bound.depth, body.depth);
    let tree = Expr::Let {
        at,
        name,
        bound: bound.tree,
        body: body.tree,
    };
    over(alloc, tree, 0, depth, rest)
}
