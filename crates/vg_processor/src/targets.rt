//! The items that behaviours write.

ghost use Rattle.std.specs.Prelude.{◌≡◌, [], flat_map, nat_eq, IfOk, OnOk};
ghost use Rattle.std.specs.List.{list_any};
ghost use Rattle.std.specs.Option.{option_map};
ghost use Rattle.vg_type.specs.Setting.{setting_in};
ghost use Rattle.vg_tree.specs.Written.{target_number as number_of_target};
ghost use Rattle.vg_stage.specs.StageOrder.{effect_writes, else_numbers};
ghost use Rattle.vg_processor.specs.IsaOf.{once};
ghost use Rattle.vg_processor.specs.Outcome.{with_number, with_numbers};

use sqlite_items::{Boxed, Items};
use std::alloc::{AllocError, Global};
use vg_inline::{Effect, Target};
use vg_tree::Frame;

fn has(numbers: &[usize], number: usize) -> bool
    ensures { result ≡ list_any (nat_eq number) numbers.now }
{
    numbers.iter().any(|other| number == *other)
}

/// Puts a number behind others, unless it is among them.
fn push_number(numbers: &mut Items<usize>, number: usize) -> Result<(), AllocError>
    ensures { OnOk result (numbers.new ≡ with_number numbers.old number) }
{
    if has(numbers.as_slice(), number) {
        Ok(())
    } else {
        numbers.push(number)
    }
}

/// The number of the item that an assignment writes.
fn target_number(target: Target, frame: &Frame) -> usize
    ensures { result ≡ number_of_target (setting_in frame.now.setting.now.context.now) target }
{
    match target {
        Target::Resource { item, .. } | Target::Indexed { item, .. } => item,
        Target::Access { .. } => frame.memory,
    }
}

#[cycle(effect)]
#[tactic(auto, using(crate::proofs::TargetLemmas::numbers_more, crate::proofs::TargetLemmas::numbers_all))]
fn push_effects(
    effects: &[Effect],
    frame: &Frame,
    numbers: &mut Items<usize>,
) -> Result<(), AllocError>
    ensures { OnOk result (numbers.new ≡ with_numbers numbers.old (flat_map (effect_writes (setting_in frame.now.setting.now.context.now)) effects.now)) }
{
    for effect in effects {
        push_effect(effect, frame, numbers)?;
    }
    Ok(())
}

#[cycle(effect)]
fn push_else(
    otherwise: &Option<Boxed<Effect>>,
    frame: &Frame,
    numbers: &mut Items<usize>,
) -> Result<(), AllocError>
    ensures { OnOk result (numbers.new ≡ with_numbers numbers.old (else_numbers (option_map (effect_writes (setting_in frame.now.setting.now.context.now)) otherwise.now))) }
{
    match otherwise {
        None => Ok(()),
        Some(other) => push_effect(other.get(), frame, numbers),
    }
}

/// Puts the numbers of the items that a statement writes behind others.
#[cycle(effect)]
#[tactic(auto, using(crate::proofs::TargetLemmas::target_steps))]
fn push_effect(effect: &Effect, frame: &Frame, numbers: &mut Items<usize>) -> Result<(), AllocError>
    ensures { OnOk result (numbers.new ≡ with_numbers numbers.old (effect_writes (setting_in frame.now.setting.now.context.now) effect.now)) }
{
    match effect {
        Effect::Block { effects } => push_effects(effects.as_slice(), frame, numbers),
        Effect::If {
            then,
            otherwise,
            ..
        } => {
            push_effect(then.get(), frame, numbers)?;
            push_else(otherwise, frame, numbers)
        }
        Effect::Assign { target, .. } => push_number(numbers, target_number(*target, frame)),
    }
}

/// The numbers of the items that a behaviour writes, each once, in the order in which it first names them.
#[tactic(auto, using(crate::proofs::TargetLemmas::each_once))]
pub(crate) fn items_written(
    alloc: Global,
    effect: &Effect,
    frame: &Frame,
) -> Result<Items<usize>, AllocError>
    ensures { IfOk result (λ it. it ≡ once [] (effect_writes (setting_in frame.now.setting.now.context.now) effect.now)) }
{
    let mut numbers = Items::new(alloc);
    push_effect(effect, frame, &mut numbers)?;
    Ok(numbers)
}
