//! What an instruction writes to memory, registers and the program counter.

ghost use Rattle.std.specs.Prelude.{◌≡◌, [], ◌++◌, IfOk, OnOk};
ghost use Rattle.std.specs.Option.{option_copied, option_map, option_to_list};
ghost use Rattle.vg_type.specs.Setting.{setting_in};
ghost use Rattle.vg_tree.specs.Frame.{frame_in};
ghost use Rattle.vg_tree.specs.Resource.{is_counter as is_counter_item};
ghost use Rattle.vg_stage.specs.StageOrder.{effect_writes};
ghost use Rattle.vg_processor.specs.IsaOf.{once, write_by};
ghost use Rattle.vg_processor.specs.Outcome.{nothing_done, with_item as item_added, with_items, with_next as next_added, with_write as write_added};

use crate::numbering::resource_id;
use crate::outcome::Outcome;
use crate::reads::{nearer, written_place};
use crate::targets::items_written;
use sqlite_items::{Boxed, Items};
use std::alloc::{AllocError, Global};
use vg_ast::Item;
use vg_inline::Effect;
use vg_isa::{Expr, Write};
use vg_tree::{Frame, Written, written_to};

fn is_counter(item: Option<&Item>) -> bool
    ensures { result ≡ is_counter_item (option_copied item.entry) }
{
    match item {
        Some(Item::ProgramCounter { .. }) => true,
        _ => false,
    }
}

fn unboxed(at: Option<Boxed<Expr>>) -> Option<Expr>
    ensures { result ≡ at }
{
    match at {
        None => None,
        Some(at) => Some(at.into_inner()),
    }
}

/// What is written, as a write of the item of a number.
fn write_of(item: usize, written: Written, frame: &Frame) -> Result<Write, AllocError>
    ensures { IfOk result (λ it. it ≡ write_by (setting_in frame.now.setting.now.context.now) item written) }
{
    let resource = resource_id(item, frame.resources, frame.setting)?;
    Ok(Write {
        resource,
        guard: written.guard.into_inner(),
        at: unboxed(written.at),
        value: written.value.into_inner(),
        guard_spot: written.guard_spot,
        at_spot: written.at_spot,
        value_spot: written.value_spot,
    })
}

/// Puts it behind other writes, where something is written.
fn push_write(
    writes: &mut Items<Write>,
    item: usize,
    written: Option<Written>,
    frame: &Frame,
) -> Result<(), AllocError>
    ensures { OnOk result (writes.new ≡ writes.old ++ option_to_list (option_map (write_by (setting_in frame.now.setting.now.context.now) item) written)) }
{
    match written {
        None => Ok(()),
        Some(written) => {
            let write = write_of(item, written, frame)?;
            writes.push(write)
        }
    }
}

/// With what is written to a program counter; the first one counts.
fn with_next(outcome: Outcome, item: usize, written: Option<Written>) -> Outcome
    ensures { result ≡ next_added outcome item written }
{
    let read = nearer(outcome.read, written_place(&written));
    match outcome.counter {
        None => Outcome {
            writes: outcome.writes,
            counter: Some(item),
            next: written,
            read,
        },
        Some(counter) => Outcome {
            writes: outcome.writes,
            counter: Some(counter),
            next: outcome.next,
            read,
        },
    }
}

/// With what is written to memory or a register.
fn with_write(
    outcome: Outcome,
    item: usize,
    written: Option<Written>,
    frame: &Frame,
) -> Result<Outcome, AllocError>
    ensures { IfOk result (λ it. it ≡ write_added (setting_in frame.now.setting.now.context.now) outcome item written) }
{
    let read = nearer(outcome.read, written_place(&written));
    let mut writes = outcome.writes;
    push_write(&mut writes, item, written, frame)?;
    Ok(Outcome {
        writes,
        counter: outcome.counter,
        next: outcome.next,
        read,
    })
}

/// With what is written to the item of a number.
fn with_item(
    outcome: Outcome,
    item: usize,
    written: Option<Written>,
    frame: &Frame,
) -> Result<Outcome, AllocError>
    ensures { IfOk result (λ it. it ≡ item_added (setting_in frame.now.setting.now.context.now) outcome item written) }
{
    if is_counter(frame.setting.context.table.items.get(item)) {
        Ok(with_next(outcome, item, written))
    } else {
        with_write(outcome, item, written, frame)
    }
}

fn nothing(alloc: Global) -> Outcome
    ensures { result ≡ nothing_done }
{
    Outcome {
        writes: Items::new(alloc),
        counter: None,
        next: None,
        read: None,
    }
}

/// What a behaviour does.
#[tactic(auto, using(crate::proofs::OutcomeLemmas::items_more, crate::proofs::OutcomeLemmas::items_all))]
pub(crate) fn outcome_of(
    alloc: Global,
    effect: &Effect,
    frame: &Frame,
) -> Result<Outcome, AllocError>
    ensures { IfOk result (λ it. it ≡ with_items (frame_in frame.now) effect.now nothing_done (once [] (effect_writes (setting_in frame.now.setting.now.context.now) effect.now))) }
{
    let items = items_written(alloc, effect, frame)?;
    let mut outcome = nothing(alloc);
    for item in items.as_slice() {
        let written = written_to(alloc, effect, *item, frame)?;
        outcome = with_item(outcome, *item, written, frame)?;
    }
    Ok(outcome)
}
