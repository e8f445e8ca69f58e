//! What behaviours write.

ghost use Rattle.std.specs.Prelude.{◌≡◌, ◌++◌, map, Option, Some, None, IfOk, if◌then◌else◌, nat_eq};
ghost use Rattle.std.specs.Option.{option_map};
ghost use Rattle.vg_type.specs.Setting.{setting_in};
ghost use Rattle.vg_tree.specs.Frame.{frame_in};
ghost use Rattle.vg_tree.specs.Made.{at_place, made};
ghost use Rattle.vg_tree.specs.Written.{alone as written_alone, chosen as chosen_of, condition_tree, else_written, first_part as first_part_of, first_written as first_of_written, readings_in as readings_of_part, target_number as number_of_target, written as written_of};

use crate::choosing::chosen;
use crate::constants::placed;
use crate::frame::Frame;
use crate::guards::always;
use crate::made::Made;
use crate::making::make;
use crate::reading::Reading;
use crate::targets::{part_place, part_type, target_number, target_type};
use crate::written::Written;
use sqlite_items::{Boxed, Items};
use std::alloc::{AllocError, Global};
use vg_inline::{Effect, Target, Tree};
use vg_isa::Expr;
use vg_type::ValueType;

/// An index or address at its place, with the memory reads in it.
#[derive(Drop)]
struct Placed {
    at: Option<Boxed<Expr>>,
    readings: Items<Reading>,
}

/// The index or address of a target, if there is one.
fn first_part(alloc: Global, parts: &[Tree], frame: &Frame) -> Result<Option<Made>, AllocError>
    ensures { IfOk result (λ it. it ≡ first_part_of (frame_in frame.now) parts.now) }
{
    match parts {
        [] => Ok(None),
        [part, ..] => {
            let made = make(alloc, part, frame)?;
            Ok(Some(made))
        }
    }
}

fn placed_part(
    alloc: Global,
    has: Option<ValueType>,
    part: Option<Made>,
) -> Result<Placed, AllocError>
    ensures { IfOk result (λ it. it ≡ record { at = option_map (at_place has) part; readings = readings_of_part part }) }
{
    match part {
        None => Ok(Placed {
            at: None,
            readings: Items::new(alloc),
        }),
        Some(part) => {
            let at = placed(alloc, has, part.sort, part.tree)?;
            Ok(Placed {
                at: Some(at),
                readings: part.readings,
            })
        }
    }
}

/// A write alone.
fn alone(
    alloc: Global,
    target: Target,
    part: Option<Made>,
    value_at: usize,
    value: Made,
    frame: &Frame,
) -> Result<Written, AllocError>
    ensures { IfOk result (λ it. it ≡ written_alone (frame_in frame.now) target part value_at value) }
{
    let part = placed_part(alloc, part_type(target, frame), part)?;
    let guard = always(alloc)?;
    let tree = placed(alloc, target_type(target, frame), value.sort, value.tree)?;
    let mut readings = part.readings;
    readings.append(value.readings)?;
    Ok(Written {
        guard,
        guard_spot: None,
        at: part.at,
        at_spot: part_place(target),
        value: tree,
        value_spot: value_at,
        readings,
    })
}

/// What an assignment writes to the item of a number.
fn assigned(
    alloc: Global,
    target: Target,
    parts: &[Tree],
    value_at: usize,
    value: &Tree,
    item: usize,
    frame: &Frame,
) -> Result<Option<Written>, AllocError>
    ensures { IfOk result (λ it. it ≡ (if nat_eq (number_of_target (setting_in frame.now.setting.now.context.now) target) item then Some (written_alone (frame_in frame.now) target (first_part_of (frame_in frame.now) parts.now) value_at (made (frame_in frame.now) value.now)) else None)) }
{
    if target_number(target, frame) != item {
        return Ok(None);
    }
    let part = first_part(alloc, parts, frame)?;
    let value = make(alloc, value, frame)?;
    let written = alone(alloc, target, part, value_at, value, frame)?;
    Ok(Some(written))
}

/// What is written under a condition, by what each side writes.
fn under(
    alloc: Global,
    at: usize,
    condition: &Tree,
    one: Option<Written>,
    other: Option<Written>,
    frame: &Frame,
) -> Result<Option<Written>, AllocError>
    ensures { IfOk result (λ it. it ≡ chosen_of at (condition_tree (made (frame_in frame.now) condition.now)) (made (frame_in frame.now) condition.now).readings one other) }
{
    if one.is_none() && other.is_none() {
        return Ok(None);
    }
    let made = make(alloc, condition, frame)?;
    let condition = placed(alloc, Some(ValueType::Bool), made.sort, made.tree)?;
    chosen(alloc, at, condition, made.readings, one, other)
}

/// What the first of these statements that writes an item does.
#[cycle(written_to)]
fn first_written(
    alloc: Global,
    effects: &[Effect],
    item: usize,
    frame: &Frame,
) -> Result<Option<Written>, AllocError>
    ensures { IfOk result (λ it. it ≡ first_of_written (map (written_of (frame_in frame.now) item) effects.now)) }
{
    for effect in effects {
        if let Some(written) = written_to(alloc, effect, item, frame)? {
            return Ok(Some(written));
        }
    }
    Ok(None)
}

/// What the other side of a conditional writes to an item, if there is another side.
#[cycle(written_to)]
fn otherwise_written(
    alloc: Global,
    otherwise: &Option<Boxed<Effect>>,
    item: usize,
    frame: &Frame,
) -> Result<Option<Written>, AllocError>
    ensures { IfOk result (λ it. it ≡ else_written (option_map (written_of (frame_in frame.now) item) otherwise.now)) }
{
    match otherwise {
        None => Ok(None),
        Some(effect) => written_to(alloc, effect.get(), item, frame),
    }
}

/// What a behaviour writes to the resource of an item, if it writes it, unless memory ends.
#[cycle(written_to)]
pub fn written_to(
    alloc: Global,
    effect: &Effect,
    item: usize,
    frame: &Frame,
) -> Result<Option<Written>, AllocError>
    ensures { IfOk result (λ it. it ≡ written_of (frame_in frame.now) item effect.now) }
{
    match effect {
        Effect::Block { effects } => first_written(alloc, effects.as_slice(), item, frame),
        Effect::If {
            condition_at,
            condition,
            then,
            otherwise,
        } => {
            let one = written_to(alloc, then.get(), item, frame)?;
            let other = otherwise_written(alloc, otherwise, item, frame)?;
            under(alloc, *condition_at, condition, one, other, frame)
        }
        Effect::Assign {
            target,
            parts,
            value_at,
            value,
        } => assigned(
            alloc,
            *target,
            parts.as_slice(),
            *value_at,
            value,
            item,
            frame,
        ),
    }
}
