//! Which bodies of functions are made, and behind which each is dropped.
//!
//! A body is made where an instruction reaches its function, and dropped behind the last other body that uses it; one that
//! an instruction calls itself stays. What is made by a schedule doesn't rest on it: where a body lacks that is used,
//! nothing is kept of what uses it, and that is seen.
use crate::action::Action;
use crate::calls::item_calls;
use std::alloc::{AllocError, Global};
use vg_ast::Item;
use vg_names::Table;

/// Marks an item as reached; whether it wasn't before.
fn mark(reached: &mut Vec<bool>, number: usize) -> bool {
    if number < reached.len() && !reached[number] {
        reached[number] = true;
        return true;
    }
    false
}

fn is_marked(reached: &[bool], number: usize) -> bool {
    number < reached.len() && reached[number]
}

/// For each item whether an instruction calls it.
fn called_by_instructions(alloc: Global, table: &Table) -> Result<Vec<bool>, AllocError> {
    let mut reached = Vec::new(alloc);
    for _ in table.items {
        reached.push(false)?;
    }
    let mut calls = Vec::new(alloc);
    for item in table.items {
        if let Item::Instruction { .. } = item {
            calls.clear();
            item_calls(item, table, &mut calls)?;
            for number in calls.as_slice() {
                mark(&mut reached, *number);
            }
        }
    }
    Ok(reached)
}

/// Notes, from the last body to the first, that of a function and those whose last use it is.
fn schedule_body(
    item: &Item,
    number: usize,
    table: &Table,
    reached: &mut Vec<bool>,
    calls: &mut Vec<usize>,
    actions: &mut Vec<Action>,
) -> Result<(), AllocError> {
    calls.clear();
    item_calls(item, table, calls)?;
    for called in calls.as_slice() {
        if mark(reached, *called) {
            actions.push(Action::Release(*called))?;
        }
    }
    actions.push(Action::Make(number))?;
    Ok(())
}

/// What is done with the bodies of functions, one behind the other.
pub(crate) fn schedule(
    alloc: Global,
    table: &Table,
    order: &[usize],
) -> Result<Vec<Action>, AllocError> {
    let mut reached = called_by_instructions(alloc, table)?;
    let mut calls = Vec::new(alloc);
    let mut actions = Vec::new(alloc);
    for number in order.iter().rev() {
        if is_marked(reached.as_slice(), *number) {
            if let Some(item) = table.items.get(*number) {
                schedule_body(item, *number, table, &mut reached, &mut calls, &mut actions)?;
            }
        }
    }
    actions.reverse();
    Ok(actions)
}
