//! Statements and what they write.

use crate::expression::push_next;
use crate::words::{push_head, push_name, push_next_name};
use std::alloc::{AllocError, Global};
use vg_ast::{Goal, Statement};

fn push_goal(goal: &Goal, alloc: Global, out: &mut String) -> Result<(), AllocError> {
    match goal {
        Goal::Name(name) => push_next_name(alloc, out, name),
        Goal::Indexed { name, index } => {
            out.push_str(" (index ")?;
            push_name(alloc, out, name)?;
            push_next(index.get(), alloc, out)?;
            out.push_str(")")
        }
        Goal::Access {
            memory,
            at,
            size,
            address,
        } => {
            out.push_str(" ")?;
            push_head(alloc, out, "access", *at)?;
            push_next_name(alloc, out, memory)?;
            push_next(size.get(), alloc, out)?;
            push_next(address.get(), alloc, out)?;
            out.push_str(")")
        }
    }
}

/// A statement, behind a space.
pub fn push_statement(
    statement: &Statement,
    alloc: Global,
    out: &mut String,
) -> Result<(), AllocError> {
    out.push_str(" ")?;
    match statement {
        Statement::Block { at, statements } => {
            push_head(alloc, out, "block", *at)?;
            for inner in statements.as_slice() {
                push_statement(inner, alloc, out)?;
            }
        }
        Statement::Let {
            at,
            name,
            bound,
            body,
        } => {
            push_head(alloc, out, "let", *at)?;
            push_next_name(alloc, out, name)?;
            push_next(bound.get(), alloc, out)?;
            push_statement(body.get(), alloc, out)?;
        }
        Statement::If {
            at,
            condition,
            then,
            otherwise,
        } => {
            push_head(alloc, out, "if", *at)?;
            push_next(condition.get(), alloc, out)?;
            push_statement(then.get(), alloc, out)?;
            if let Some(other) = otherwise {
                push_statement(other.get(), alloc, out)?;
            }
        }
        Statement::Assign { goal, value } => {
            out.push_str("(:=")?;
            push_goal(goal, alloc, out)?;
            push_next(value.get(), alloc, out)?;
        }
    }
    out.push_str(")")
}
