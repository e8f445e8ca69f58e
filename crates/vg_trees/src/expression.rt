//! Expressions and types.

use crate::words::{push_head, push_head_and_name, push_name, push_next_name, push_number};
use sqlite_items::Boxed;
use std::alloc::{AllocError, Global};
use vg_ast::{BinaryOperator, BitsKind, Expr, Name, TypeExpr, UnaryOperator};

fn unary_sign(operator: UnaryOperator) -> &'static str {
    match operator {
        UnaryOperator::Complement => "~",
        UnaryOperator::Negate => "neg",
        UnaryOperator::Not => "!",
    }
}

fn binary_sign(operator: BinaryOperator) -> &'static str {
    match operator {
        BinaryOperator::Or => "|",
        BinaryOperator::Xor => "^",
        BinaryOperator::And => "&",
        BinaryOperator::Equal => "=",
        BinaryOperator::NotEqual => "!=",
        BinaryOperator::Less => "<",
        BinaryOperator::LessEqual => "<=",
        BinaryOperator::Greater => ">",
        BinaryOperator::GreaterEqual => ">=",
        BinaryOperator::ShiftLeft => "<<",
        BinaryOperator::ShiftRight => ">>",
        BinaryOperator::Add => "+",
        BinaryOperator::Subtract => "-",
        BinaryOperator::Multiply => "*",
        BinaryOperator::MultiplyLong => "*#",
        BinaryOperator::Divide => "/",
        BinaryOperator::Remainder => "%",
    }
}

fn kind_word(kind: BitsKind) -> &'static str {
    match kind {
        BitsKind::Bits => "Bits",
        BitsKind::UInt => "UInt",
        BitsKind::SInt => "SInt",
    }
}

/// An expression, behind a space.
#[cycle(expression)]
pub fn push_next(expr: &Expr, alloc: Global, out: &mut String) -> Result<(), AllocError> {
    out.push_str(" ")?;
    push_expression(expr, alloc, out)
}

fn push_bool(alloc: Global, out: &mut String, at: usize) -> Result<(), AllocError> {
    let text = format!(in alloc; " Bool@{at}")?;
    out.push_str(text.as_str())
}

/// A type, behind a space.
#[cycle(expression)]
pub fn push_type(
    declared: &TypeExpr<Boxed<Expr>>,
    alloc: Global,
    out: &mut String,
) -> Result<(), AllocError> {
    match declared {
        TypeExpr::Sized { kind, at, width } => {
            out.push_str(" ")?;
            push_head(alloc, out, kind_word(*kind), *at)?;
            push_next(width.get(), alloc, out)?;
            out.push_str(")")
        }
        TypeExpr::Bool { at } => push_bool(alloc, out, *at),
        TypeExpr::Alias(name) => push_next_name(alloc, out, name),
    }
}

fn push_call_name(alloc: Global, out: &mut String, name: &Name) -> Result<(), AllocError> {
    out.push_str("(call ")?;
    push_name(alloc, out, name)
}

/// What an expression begins with: a number or a name alone, or what it is and its place.
fn push_beginning(expr: &Expr, alloc: Global, out: &mut String) -> Result<(), AllocError> {
    match expr {
        Expr::Number { value, at } => push_number(alloc, out, *value, *at),
        Expr::Name(name) => push_name(alloc, out, name),
        Expr::Call { name, .. } => push_call_name(alloc, out, name),
        Expr::Access { memory, at, .. } => push_head_and_name(alloc, out, "access", *at, memory),
        Expr::Join { at, .. } => push_head(alloc, out, "join", *at),
        Expr::Parentheses { at, .. } => push_head(alloc, out, "paren", *at),
        Expr::Unary { operator, at, .. } => push_head(alloc, out, unary_sign(*operator), *at),
        Expr::Binary { operator, at, .. } => push_head(alloc, out, binary_sign(*operator), *at),
        Expr::Cast { at, .. } => push_head(alloc, out, "as", *at),
        Expr::Slice { at, .. } => push_head(alloc, out, "slice", *at),
        Expr::If { at, .. } => push_head(alloc, out, "if", *at),
        Expr::Let { at, name, .. } => push_head_and_name(alloc, out, "let", *at, name),
    }
}

/// The arguments of a call, each behind a space.
#[cycle(expression)]
fn push_arguments(arguments: &[Expr], alloc: Global, out: &mut String) -> Result<(), AllocError> {
    for argument in arguments {
        push_next(argument, alloc, out)?;
    }
    Ok(())
}

/// The parts of an expression of a sign, a name or a word in front, each behind a space.
#[cycle(expression)]
fn push_operands(expr: &Expr, alloc: Global, out: &mut String) -> Result<(), AllocError> {
    match expr {
        Expr::Call { arguments, .. } => push_arguments(arguments.as_slice(), alloc, out),
        Expr::Access { size, address, .. } => {
            push_next(size.get(), alloc, out)?;
            push_next(address.get(), alloc, out)
        }
        Expr::Join { high, low, .. } => {
            push_next(high.get(), alloc, out)?;
            push_next(low.get(), alloc, out)
        }
        Expr::Parentheses { inner, .. } => push_next(inner.get(), alloc, out),
        Expr::Unary { operand, .. } => push_next(operand.get(), alloc, out),
        Expr::Binary { left, right, .. } => {
            push_next(left.get(), alloc, out)?;
            push_next(right.get(), alloc, out)
        }
        _ => Ok(()),
    }
}

/// The parts of a cast, a slice, an `if` and a `let`, each behind a space.
#[cycle(expression)]
fn push_others(expr: &Expr, alloc: Global, out: &mut String) -> Result<(), AllocError> {
    match expr {
        Expr::Cast {
            operand,
            target,
            ..
        } => {
            push_next(operand.get(), alloc, out)?;
            push_type(target, alloc, out)
        }
        Expr::Slice {
            operand,
            high,
            low,
            ..
        } => {
            push_next(operand.get(), alloc, out)?;
            push_next(high.get(), alloc, out)?;
            push_next(low.get(), alloc, out)
        }
        Expr::If {
            condition,
            then,
            otherwise,
            ..
        } => {
            push_next(condition.get(), alloc, out)?;
            push_next(then.get(), alloc, out)?;
            push_next(otherwise.get(), alloc, out)
        }
        Expr::Let { bound, body, .. } => {
            push_next(bound.get(), alloc, out)?;
            push_next(body.get(), alloc, out)
        }
        _ => Ok(()),
    }
}

#[cycle(expression)]
pub fn push_expression(expr: &Expr, alloc: Global, out: &mut String) -> Result<(), AllocError> {
    push_beginning(expr, alloc, out)?;
    match expr {
        Expr::Number { .. } => Ok(()),
        Expr::Name(_) => Ok(()),
        _ => {
            push_operands(expr, alloc, out)?;
            push_others(expr, alloc, out)?;
            out.push_str(")")
        }
    }
}
