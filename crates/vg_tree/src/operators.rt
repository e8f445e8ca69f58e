//! Operators over what stands for their operands.

ghost use Rattle.std.specs.Prelude.{◌≡◌, IfOk};
ghost use Rattle.vg_isa.specs.declared.expr.Expr.TheVariants.{Binary as binary_node};
ghost use Rattle.vg_tree.specs.Made.{binary_made, binary_tree as tree_of_binary, either as one_of, is_signed as is_signed_type, less as less_tree, negated as negated_tree, operands_type as type_of_operands, operation_tree, unary_made, unary_tree as tree_of_unary};
ghost use Rattle.vg_tree.specs.Resource.{typed_sort as type_in_sort};

use crate::constants::{placed, typed};
use crate::made::Made;
use sqlite_items::Boxed;
use std::alloc::{AllocError, Global};
use vg_ast::{BinaryOperator, BitsKind, UnaryOperator};
use vg_isa::{BinOp, Expr, UnOp};
use vg_type::{Sort, ValueType, binary_type, common_type, is_shift, operand_type, unary_type};

/// Whether values of a type are signed.
pub(crate) fn is_signed(has: Option<ValueType>) -> bool
    ensures { result ≡ is_signed_type has }
{
    match has {
        Some(
            ValueType::Sized {
                kind: BitsKind::SInt,
                ..
            },
        ) => true,
        _ => false,
    }
}

/// The type of what has one.
pub(crate) fn typed_sort(sort: Sort) -> Option<ValueType>
    ensures { result ≡ type_in_sort sort }
{
    match sort {
        Sort::Typed { has } => Some(has),
        _ => None,
    }
}

/// The type by which an operator is signed.
fn operands_type(operator: BinaryOperator, left: Sort, right: Sort) -> Option<ValueType>
    ensures { result ≡ type_of_operands operator left right }
{
    if is_shift(operator) {
        typed_sort(left)
    } else {
        common_type(left, right)
    }
}

/// The complement.
pub(crate) fn negated(alloc: Global, a: Boxed<Expr>) -> Result<Boxed<Expr>, AllocError>
    ensures { IfOk result (λ tree. tree ≡ negated_tree a) }
{
    Boxed::new(alloc, Expr::Unary(UnOp::Not, a))
}

fn unary_tree(
    alloc: Global,
    operator: UnaryOperator,
    a: Boxed<Expr>,
) -> Result<Boxed<Expr>, AllocError>
    ensures { IfOk result (λ tree. tree ≡ tree_of_unary operator a) }
{
    match operator {
        UnaryOperator::Complement | UnaryOperator::Not => negated(alloc, a),
        UnaryOperator::Negate => Boxed::new(alloc, Expr::Unary(UnOp::Neg, a)),
    }
}

pub(crate) fn unary(alloc: Global, operator: UnaryOperator, a: Made) -> Result<Made, AllocError>
    ensures { IfOk result (λ it. it ≡ unary_made operator a) }
{
    let has = unary_type(operator, a.sort);
    let tree = unary_tree(alloc, operator, a.tree)?;
    typed(alloc, has, tree, a.readings)
}

fn node(
    alloc: Global,
    operator: BinOp,
    a: Boxed<Expr>,
    b: Boxed<Expr>,
) -> Result<Boxed<Expr>, AllocError>
    ensures { IfOk result (λ tree. tree ≡ binary_node operator a b) }
{
    Boxed::new(alloc, Expr::Binary(operator, a, b))
}

fn either(is_signed: bool, signed: BinOp, unsigned: BinOp) -> BinOp
    ensures { result ≡ one_of is_signed signed unsigned }
{
    if is_signed { signed } else { unsigned }
}

fn less(
    alloc: Global,
    is_signed: bool,
    a: Boxed<Expr>,
    b: Boxed<Expr>,
) -> Result<Boxed<Expr>, AllocError>
    ensures { IfOk result (λ tree. tree ≡ less_tree is_signed a b) }
{
    if is_signed {
        node(alloc, BinOp::Slt, a, b)
    } else {
        node(alloc, BinOp::Lt, a, b)
    }
}

/// `x > y` is `y < x`, `x <= y` is `!(y < x)`, `x >= y` is `!(x < y)` and `x != y` is `!(x = y)`.
fn binary_tree(
    alloc: Global,
    operator: BinaryOperator,
    is_signed: bool,
    a: Boxed<Expr>,
    b: Boxed<Expr>,
) -> Result<Boxed<Expr>, AllocError>
    ensures { IfOk result (λ tree. tree ≡ tree_of_binary operator is_signed a b) }
{
    match operator {
        BinaryOperator::Or => node(alloc, BinOp::Or, a, b),
        BinaryOperator::Xor => node(alloc, BinOp::Xor, a, b),
        BinaryOperator::And => node(alloc, BinOp::And, a, b),
        BinaryOperator::Equal => node(alloc, BinOp::Eq, a, b),
        BinaryOperator::NotEqual => negated(alloc, node(alloc, BinOp::Eq, a, b)?),
        BinaryOperator::Less => less(alloc, is_signed, a, b),
        BinaryOperator::LessEqual => negated(alloc, less(alloc, is_signed, b, a)?),
        BinaryOperator::Greater => less(alloc, is_signed, b, a),
        BinaryOperator::GreaterEqual => negated(alloc, less(alloc, is_signed, a, b)?),
        BinaryOperator::ShiftLeft => node(alloc, BinOp::Shl, a, b),
        BinaryOperator::ShiftRight => {
            node(alloc, either(is_signed, BinOp::Sar, BinOp::Shr), a, b)
        }
        BinaryOperator::Add => node(alloc, BinOp::Add, a, b),
        BinaryOperator::Subtract => node(alloc, BinOp::Sub, a, b),
        BinaryOperator::Multiply => node(alloc, BinOp::Mul, a, b),
        BinaryOperator::MultiplyLong => node(alloc, BinOp::MulLong { signed: is_signed }, a, b),
        BinaryOperator::Divide => node(alloc, either(is_signed, BinOp::Sdiv, BinOp::Udiv), a, b),
        BinaryOperator::Remainder => {
            node(alloc, either(is_signed, BinOp::Srem, BinOp::Urem), a, b)
        }
    }
}

/// An operator over operands that stand at a place of the type of the other.
fn operation(
    alloc: Global,
    operator: BinaryOperator,
    a_sort: Sort,
    b_sort: Sort,
    a: Boxed<Expr>,
    b: Boxed<Expr>,
) -> Result<Boxed<Expr>, AllocError>
    ensures { IfOk result (λ tree. tree ≡ operation_tree operator a_sort b_sort a b) }
{
    let takes = operand_type(operator, a_sort, b_sort);
    let signed = is_signed(operands_type(operator, a_sort, b_sort));
    let left = placed(alloc, takes, a_sort, a)?;
    let right = placed(alloc, takes, b_sort, b)?;
    binary_tree(alloc, operator, signed, left, right)
}

pub(crate) fn binary(
    alloc: Global,
    operator: BinaryOperator,
    a: Made,
    b: Made,
) -> Result<Made, AllocError>
    ensures { IfOk result (λ it. it ≡ binary_made operator a b) }
{
    let has = binary_type(operator, a.sort, b.sort);
    let tree = operation(alloc, operator, a.sort, b.sort, a.tree, b.tree)?;
    let mut readings = a.readings;
    readings.append(b.readings)?;
    typed(alloc, has, tree, readings)
}
