//! What instructions do.
ghost use Rattle.std.specs.Prelude.{◌≡◌, ◌≤◌, true, List, IfOk};
ghost use Rattle.std.specs.List.{list_all};
ghost use Rattle.vg_ast.specs.declared.parameter.Parameter.{Parameter as AnyParameter};
ghost use Rattle.vg_names.specs.Definition.{fields_of_format, item_named};
ghost use Rattle.vg_names.specs.First.{first_of};
ghost use Rattle.vg_names.specs.Unknown.{in_each};
ghost use Rattle.vg_inline.specs.Inline.{field_values};
ghost use Rattle.vg_inline.specs.Kept.{keeping_as};
ghost use Rattle.vg_inline.specs.Context.{inner_in, items_of, known_in};
ghost use Rattle.vg_inline.specs.KeptBehaviour.{behaviour_kept, effect_kept, instruction_kept, item_fits, item_kept_excess};

use crate::Effect;
use crate::context::Context;
use crate::kept::KeptEffect;
use crate::names::Names;
use crate::stating::state;
use std::alloc::{AllocError, Global};
use vg_ast::{Item, Name, Statement};

/// The fields of a format of this name.
#[tactic(auto, using(crate::proofs::FieldLemmas::format_missing, crate::proofs::FieldLemmas::format_found))]
fn fields_in(format: &Name, context: &Context) -> Names<'static>
    ensures { (parameters : List AnyParameter) → inner_in context.now.keep (items_of context.now) parameters result ≡ field_values (keeping_as context.now.keep) 0 (fields_of_format (item_named (items_of context.now) format.now.text)) }
{
    match context.table.number(format.text.as_slice()) {
        None => Names::Nothing,
        Some(number) => Names::Fields(number),
    }
}

/// What an instruction of this format does; None where it has too many nodes.
fn instruction(
    alloc: Global,
    format: &Name,
    behaviour: &Statement,
    context: &Context,
) -> Result<Option<KeptEffect>, AllocError>
    ensures { IfOk result (λ effect. effect ≡ instruction_kept context.now.keep (items_of context.now) (known_in context.now) format.now behaviour.now) }
{
    let names = fields_in(format, context);
    state(alloc, behaviour, context, &names)
}

/// The place of the name of an item, where it is an instruction that has too many nodes.
fn item_excess(alloc: Global, item: &Item, context: &Context) -> Result<Option<usize>, AllocError>
    ensures { IfOk result (λ found. found ≡ first_of (item_kept_excess context.now.keep (items_of context.now) (known_in context.now) item.now)) }
{
    match item {
        Item::Instruction {
            name,
            format,
            behaviour,
            ..
        } => match instruction(alloc, format, behaviour.get(), context)? {
            None => Ok(Some(name.at)),
            Some(_) => Ok(None),
        },
        _ => Ok(None),
    }
}

/// The place of the name of the first instruction that has too many nodes. What one does is dropped before the next is
/// made.
#[tactic(auto, using(vg_names::proofs::FirstLemmas::first_steps))]
pub fn first_excess(alloc: Global, context: &Context) -> Result<Option<usize>, AllocError>
    ensures { IfOk result (λ found. found ≡ first_of (in_each (item_kept_excess context.now.keep (items_of context.now) (known_in context.now)) (items_of context.now))) }
{
    for item in context.table.items {
        if let Some(at) = item_excess(alloc, item, context)? {
            return Ok(Some(at));
        }
    }
    Ok(None)
}

fn effect_of(kept: Option<KeptEffect>) -> Option<Effect>
    ensures { result ≡ effect_kept kept }
{
    match kept {
        None => None,
        Some(kept) => Some(kept.effect),
    }
}

/// What an item does, where it is an instruction that doesn't have too many nodes.
pub fn behaviour_in(
    alloc: Global,
    item: &Item,
    context: &Context,
) -> Result<Option<Effect>, AllocError>
    ensures { IfOk result (λ effect. effect ≡ behaviour_kept context.now.keep (items_of context.now) (known_in context.now) item.now) }
{
    match item {
        Item::Instruction {
            format,
            behaviour,
            ..
        } => {
            let kept = instruction(alloc, format, behaviour.get(), context)?;
            Ok(effect_of(kept))
        }
        _ => Ok(None),
    }
}

/// So many nodes, or as many as an item has, where it is an instruction and has more.
fn greater(alloc: Global, item: &Item, most: usize, context: &Context) -> Result<usize, AllocError>
    ensures fits { let x = context.now in IfOk result (λ next. item_fits x.keep (items_of x) (known_in x) next item.now ≡ true) }
    ensures grows { IfOk result (λ next. most ≤ next) }
{
    match item {
        Item::Instruction {
            format,
            behaviour,
            ..
        } => match instruction(alloc, format, behaviour.get(), context)? {
            None => Ok(most),
            Some(kept) => Ok(most.max(kept.nodes)),
        },
        _ => Ok(most),
    }
}

/// How many nodes the greatest instruction has, of those of which anything is kept.
#[tactic(auto, using(crate::proofs::Greatest::fitting_more, crate::proofs::Greatest::fitting_all))]
pub(crate) fn greatest(alloc: Global, context: &Context) -> Result<usize, AllocError>
    ensures { let x = context.now in IfOk result (λ most. list_all (item_fits x.keep (items_of x) (known_in x) most) (items_of x) ≡ true) }
{
    let mut most = 0;
    for item in context.table.items {
        most = greater(alloc, item, most, context)?;
    }
    Ok(most)
}
