//! The memory reads of a behaviour.
ghost use Rattle.std.specs.Prelude.{◌≡◌, ◌++◌, flat_map, OnOk};
ghost use Rattle.std.specs.Option.{option_map};
ghost use Rattle.vg_tree.specs.Access.{else_readings, readings_of, tree_readings};
ghost use Rattle.vg_tree.specs.Frame.{frame_in};

use sqlite_items::{Boxed, Items};
use std::alloc::{AllocError, Global};
use vg_inline::{Effect, Tree};
use vg_tree::{Frame, Reading, make};

/// Puts those of a tree behind others.
fn push_tree(
    alloc: Global,
    tree: &Tree,
    frame: &Frame,
    readings: &mut Items<Reading>,
) -> Result<(), AllocError>
    ensures { OnOk result (readings.new ≡ readings.old ++ tree_readings (frame_in frame.now) tree.now) }
{
    let made = make(alloc, tree, frame)?;
    readings.append(made.readings)
}

#[tactic(auto, using(crate::proofs::Gathered::put_more, crate::proofs::Gathered::put_all))]
fn push_trees(
    alloc: Global,
    trees: &[Tree],
    frame: &Frame,
    readings: &mut Items<Reading>,
) -> Result<(), AllocError>
    ensures { OnOk result (readings.new ≡ readings.old ++ flat_map (tree_readings (frame_in frame.now)) trees.now) }
{
    for tree in trees {
        push_tree(alloc, tree, frame, readings)?;
    }
    Ok(())
}

#[cycle(effect)]
#[tactic(auto, using(crate::proofs::Gathered::put_more, crate::proofs::Gathered::put_all))]
fn push_effects(
    alloc: Global,
    effects: &[Effect],
    frame: &Frame,
    readings: &mut Items<Reading>,
) -> Result<(), AllocError>
    ensures { OnOk result (readings.new ≡ readings.old ++ flat_map (readings_of (frame_in frame.now)) effects.now) }
{
    for effect in effects {
        push_effect(alloc, effect, frame, readings)?;
    }
    Ok(())
}

#[cycle(effect)]
fn push_else(
    alloc: Global,
    otherwise: &Option<Boxed<Effect>>,
    frame: &Frame,
    readings: &mut Items<Reading>,
) -> Result<(), AllocError>
    ensures { OnOk result (readings.new ≡ readings.old ++ else_readings (option_map (readings_of (frame_in frame.now)) otherwise.now)) }
{
    match otherwise {
        None => Ok(()),
        Some(other) => push_effect(alloc, other.get(), frame, readings),
    }
}

/// Puts those of a statement behind others.
#[cycle(effect)]
#[tactic(auto, using(crate::proofs::Gathered::gathered_steps, crate::proofs::Gathered::put_more, crate::proofs::Gathered::put_all))]
pub(crate) fn push_effect(
    alloc: Global,
    effect: &Effect,
    frame: &Frame,
    readings: &mut Items<Reading>,
) -> Result<(), AllocError>
    ensures { OnOk result (readings.new ≡ readings.old ++ readings_of (frame_in frame.now) effect.now) }
{
    match effect {
        Effect::Block { effects } => push_effects(alloc, effects.as_slice(), frame, readings),
        Effect::If {
            condition,
            then,
            otherwise,
            ..
        } => {
            push_tree(alloc, condition, frame, readings)?;
            push_effect(alloc, then.get(), frame, readings)?;
            push_else(alloc, otherwise, frame, readings)
        }
        Effect::Assign { parts, value, .. } => {
            push_trees(alloc, parts.as_slice(), frame, readings)?;
            push_tree(alloc, value, frame, readings)
        }
    }
}
