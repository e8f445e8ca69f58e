//! The rule that indices are made of fields, constants and casts.
ghost use Rattle.std.specs.Prelude.{◌≡◌, ◌&&◌, flat_map, map, IfOk};
ghost use Rattle.std.specs.Option.{option_map};
ghost use Rattle.vg_inline.specs.Bodies.{AreBodies};
ghost use Rattle.vg_inline.specs.InPlace.{known_of};
ghost use Rattle.vg_inline.specs.Rules.{IsFolded};
ghost use Rattle.vg_names.specs.First.{first_of};
ghost use Rattle.vg_type.specs.Item.{setting_of};
ghost use Rattle.vg_tree.specs.Access.{all_places, all_plain, else_indices, in_behaviour, indexing, indices_not_fields, is_plain_head as is_plain_head_of, wrong_indices};
ghost use Rattle.vg_stage.specs.Earliest.{earlier as earlier_of, least};
ghost use Rattle.vg_stage.specs.IndexFound.{own_index, target_index};

use crate::earliest::earlier;
use crate::indices::Indices;
use sqlite_items::Boxed;
use std::alloc::{AllocError, Global};
use vg_inline::{Bodies, Effect, Head, Plain, Target, Tree, behaviour};
use vg_type::Setting;

/// Whether a node may stand in an index.
fn is_plain_head(head: Head) -> bool
    ensures { result ≡ is_plain_head_of head }
{
    match head {
        Head::Whole { .. } | Head::Constant { .. } | Head::Field { .. } | Head::Cast { .. } => true,
        _ => false,
    }
}

/// The place of a node's own index, unless that is made as it may be.
fn own_place(head: Head, is_plain: bool) -> Option<usize>
    ensures { result ≡ own_index head is_plain }
{
    match head {
        Head::Indexed { index_at, .. } if !is_plain => Some(index_at),
        _ => None,
    }
}

/// What is found of parts, and of another behind them.
fn joined(parts: Indices, last: Indices) -> Indices
    ensures plain { result.is_plain ≡ (parts.is_plain && last.is_plain) }
    ensures first { result.first ≡ earlier_of parts.first last.first }
{
    Indices {
        is_plain: parts.is_plain && last.is_plain,
        first: earlier(parts.first, last.first),
    }
}

/// What is found of a tree.
#[cycle(tree)]
#[tactic(auto, using(crate::proofs::IndexLemmas::tree_steps))]
fn tree_indices(tree: &Tree) -> Indices
    ensures plain { result.is_plain ≡ (indexing tree.now).is_plain }
    ensures first { result.first ≡ least (indexing tree.now).places }
{
    let parts = all_indices(tree.parts.as_slice());
    Indices {
        is_plain: is_plain_head(tree.head) && parts.is_plain,
        first: earlier(own_place(tree.head, parts.is_plain), parts.first),
    }
}

#[cycle(tree)]
fn all_indices(trees: &[Tree]) -> Indices
    ensures plain { result.is_plain ≡ all_plain (map indexing trees.now) }
    ensures first { result.first ≡ least (all_places (map indexing trees.now)) }
{
    let mut all = Indices {
        is_plain: true,
        first: None,
    };
    for tree in trees {
        all = joined(all, tree_indices(tree));
    }
    all
}

/// The place of the index of what is written, unless it is made as it may be.
fn target_place(target: Target, is_plain: bool) -> Option<usize>
    ensures { result ≡ target_index target is_plain }
{
    match target {
        Target::Indexed { index_at, .. } if !is_plain => Some(index_at),
        _ => None,
    }
}

/// The first place of an index of a statement that isn't made of fields, constants and casts alone.
#[cycle(effect)]
#[tactic(auto, using(crate::proofs::IndexLemmas::effect_steps))]
fn effect_break(effect: &Effect) -> Option<usize>
    ensures { result ≡ least (wrong_indices effect.now) }
{
    match effect {
        Effect::Block { effects } => effects_break(effects.as_slice()),
        Effect::If {
            condition,
            then,
            otherwise,
            ..
        } => {
            let condition = tree_indices(condition);
            let body = earlier(condition.first, effect_break(then.get()));
            earlier(body, else_break(otherwise))
        }
        Effect::Assign {
            target,
            parts,
            value,
            ..
        } => {
            let parts = all_indices(parts.as_slice());
            let value = tree_indices(value);
            let written = target_place(*target, parts.is_plain);
            earlier(earlier(written, parts.first), value.first)
        }
    }
}

#[cycle(effect)]
fn else_break(otherwise: &Option<Boxed<Effect>>) -> Option<usize>
    ensures { result ≡ least (else_indices (option_map wrong_indices otherwise.now)) }
{
    match otherwise {
        None => None,
        Some(other) => effect_break(other.get()),
    }
}

#[cycle(effect)]
fn effects_break(effects: &[Effect]) -> Option<usize>
    ensures { result ≡ least (flat_map wrong_indices effects.now) }
{
    let mut first = None;
    for effect in effects {
        first = earlier(first, effect_break(effect));
    }
    first
}

fn behaviour_break(effect: &Option<Effect>) -> Option<usize>
    ensures { result ≡ least (in_behaviour wrong_indices effect.now) }
{
    match effect {
        None => None,
        Some(effect) => effect_break(effect),
    }
}

/// The first place at which the index of a register in a behaviour isn't made of fields, constants and casts alone: the
/// first token of the index; None where there is none. What one instruction does is dropped before the next is made.
pub fn first_index_not_field(
    alloc: Global,
    setting: &Setting,
    plain: &Plain,
    bodies: &Bodies,
) -> Result<Option<usize>, AllocError>
    requires folded { IsFolded plain.now.description plain.now }
    requires table { setting.now.context.now.table.now.items.now ≡ plain.now.description.items }
    requires bodies { AreBodies plain.now.description.items bodies.now }
    ensures { let all = plain.now.description.items in IfOk result (λ found. found ≡ first_of (indices_not_fields (setting_of all) (known_of all))) }
{
    let table = setting.context.table;
    let mut first = None;
    for number in 0..table.items.len() {
        let effect = behaviour(alloc, table, plain, bodies, number)?;
        first = earlier(first, behaviour_break(&effect));
    }
    Ok(first)
}
