//! What is written on the sides of a conditional.

ghost use Rattle.std.specs.Prelude.{◌≡◌, IfOk};
ghost use Rattle.vg_tree.specs.Written.{chosen as chosen_of, on_both_sides as of_both_sides, on_one_side as of_one_side};

use crate::guards::{either_guard, guarded};
use crate::operators::negated;
use crate::reading::Reading;
use crate::written::Written;
use sqlite_items::{Boxed, Items};
use std::alloc::{AllocError, Global};
use vg_isa::Expr;

/// Written on one side alone, of which this is the condition.
fn on_one_side(
    alloc: Global,
    at: usize,
    condition: Boxed<Expr>,
    readings: Items<Reading>,
    written: Written,
) -> Result<Written, AllocError>
    ensures { IfOk result (λ it. it ≡ of_one_side at condition readings written) }
{
    let guard = guarded(alloc, condition, written.guard)?;
    let mut all = readings;
    all.append(written.readings)?;
    Ok(Written {
        guard,
        guard_spot: Some(at),
        at: written.at,
        at_spot: written.at_spot,
        value: written.value,
        value_spot: written.value_spot,
        readings: all,
    })
}

/// Written on both sides.
fn on_both_sides(
    alloc: Global,
    at: usize,
    condition: Boxed<Expr>,
    readings: Items<Reading>,
    one: Written,
    other: Written,
) -> Result<Written, AllocError>
    ensures { IfOk result (λ it. it ≡ of_both_sides at condition readings one other) }
{
    let guard = either_guard(alloc, condition.get(), one.guard, other.guard)?;
    let value = Boxed::new(alloc, Expr::If(condition, one.value, other.value))?;
    let mut all = readings;
    all.append(one.readings)?;
    all.append(other.readings)?;
    Ok(Written {
        guard,
        guard_spot: Some(at),
        at: one.at,
        at_spot: one.at_spot,
        value,
        value_spot: one.value_spot,
        readings: all,
    })
}

/// What is written under a condition, by what each side writes.
pub(crate) fn chosen(
    alloc: Global,
    at: usize,
    condition: Boxed<Expr>,
    readings: Items<Reading>,
    one: Option<Written>,
    other: Option<Written>,
) -> Result<Option<Written>, AllocError>
    ensures { IfOk result (λ it. it ≡ chosen_of at condition readings one other) }
{
    match (one, other) {
        (None, None) => Ok(None),
        (Some(one), None) => {
            let written = on_one_side(alloc, at, condition, readings, one)?;
            Ok(Some(written))
        }
        (None, Some(other)) => {
            let negated = negated(alloc, condition)?;
            let written = on_one_side(alloc, at, negated, readings, other)?;
            Ok(Some(written))
        }
        (Some(one), Some(other)) => {
            let written = on_both_sides(alloc, at, condition, readings, one, other)?;
            Ok(Some(written))
        }
    }
}
