//! Which items an expression, a statement and an item call.
use sqlite_items::Boxed;
use std::alloc::AllocError;
use vg_ast::{Expr, Goal, Item, Name, Statement};
use vg_names::Table;

/// Notes the number of the item that a call names. An inner name that hides it isn't looked at.
fn name_called(name: &Name, table: &Table, calls: &mut Vec<usize>) -> Result<(), AllocError> {
    if let Some(number) = table.number(name.text.as_slice()) {
        calls.push(number)?;
    }
    Ok(())
}

/// Notes the numbers of the items that an expression calls, in the order of the text.
fn expression_calls(
    expression: &Expr,
    table: &Table,
    calls: &mut Vec<usize>,
) -> Result<(), AllocError> {
    match expression {
        Expr::Number { .. } | Expr::Name(_) => Ok(()),
        Expr::Call { name, arguments } => {
            name_called(name, table, calls)?;
            for argument in arguments.as_slice() {
                expression_calls(argument, table, calls)?;
            }
            Ok(())
        }
        Expr::Access { address, .. } => expression_calls(address.get(), table, calls),
        Expr::Join { high, low, .. } => {
            expression_calls(high.get(), table, calls)?;
            expression_calls(low.get(), table, calls)
        }
        Expr::Parentheses { inner, .. } => expression_calls(inner.get(), table, calls),
        Expr::Unary { operand, .. } | Expr::Cast { operand, .. } | Expr::Slice { operand, .. } => {
            expression_calls(operand.get(), table, calls)
        }
        Expr::Binary { left, right, .. } => {
            expression_calls(left.get(), table, calls)?;
            expression_calls(right.get(), table, calls)
        }
        Expr::If {
            condition,
            then,
            otherwise,
            ..
        } => {
            expression_calls(condition.get(), table, calls)?;
            expression_calls(then.get(), table, calls)?;
            expression_calls(otherwise.get(), table, calls)
        }
        Expr::Let { bound, body, .. } => {
            expression_calls(bound.get(), table, calls)?;
            expression_calls(body.get(), table, calls)
        }
    }
}

/// Notes the numbers of the items that an index or an address of what is written calls.
fn goal_calls(goal: &Goal, table: &Table, calls: &mut Vec<usize>) -> Result<(), AllocError> {
    match goal {
        Goal::Name(_) => Ok(()),
        Goal::Indexed { index, .. } => expression_calls(index.get(), table, calls),
        Goal::Access { address, .. } => expression_calls(address.get(), table, calls),
    }
}

/// Notes the numbers of the items that a statement calls, in the order of the text.
fn statement_calls(
    statement: &Statement,
    table: &Table,
    calls: &mut Vec<usize>,
) -> Result<(), AllocError> {
    match statement {
        Statement::Block { statements, .. } => {
            for inner in statements.as_slice() {
                statement_calls(inner, table, calls)?;
            }
            Ok(())
        }
        Statement::Let { bound, body, .. } => {
            expression_calls(bound.get(), table, calls)?;
            statement_calls(body.get(), table, calls)
        }
        Statement::If {
            condition,
            then,
            otherwise,
            ..
        } => {
            expression_calls(condition.get(), table, calls)?;
            statement_calls(then.get(), table, calls)?;
            match otherwise {
                None => Ok(()),
                Some(otherwise) => statement_calls(otherwise.get(), table, calls),
            }
        }
        Statement::Assign { goal, value } => {
            goal_calls(goal, table, calls)?;
            expression_calls(value.get(), table, calls)
        }
    }
}

/// Notes the numbers of the items that an item calls, where it is a function or an instruction.
pub(crate) fn item_calls(
    item: &Item,
    table: &Table,
    calls: &mut Vec<usize>,
) -> Result<(), AllocError> {
    match item {
        Item::Function { body, .. } => expression_calls(body.get(), table, calls),
        Item::Instruction { behaviour, .. } => statement_calls(behaviour.get(), table, calls),
        _ => Ok(()),
    }
}
