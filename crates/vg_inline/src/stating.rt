//! Statements with everything in place of their names.
ghost use Rattle.std.specs.Prelude.{◌≡◌, ◌+◌, map, IfOk};
ghost use Rattle.vg_ast.specs.Start.{start_of as start_of_expression};
ghost use Rattle.vg_inline.specs.Behaviour.{target_of, target_parts};
ghost use Rattle.vg_inline.specs.Kept.{added_effect as added_effect_of, assign_over, block_over, gathered, gathered_effects, keeping_as, kept_effect, kept_if, kept_if_else, no_effects as no_effects_of, no_trees as no_trees_of, shown_effect as shown_effect_of};
ghost use Rattle.vg_inline.specs.Context.{effect_at, inner_at, items_of, known_in, tree_at};

use crate::context::{Context, number};
use crate::inlining::{inline, inline_part};
use crate::keep::Keep;
use crate::keeping::no_trees;
use crate::kept::{Kept, KeptEffect, KeptEffects, KeptList};
use crate::names::Names;
use crate::{Effect, Target};
use sqlite_items::{Boxed, Items};
use std::alloc::{AllocError, Global};
use vg_ast::{Expr, Goal, Statement, start_of};

fn no_effects(alloc: Global) -> Option<KeptEffects>
    ensures { result ≡ no_effects_of }
{
    Some(KeptEffects {
        effects: Items::new(alloc),
        nodes: 0,
    })
}

/// A statement behind others.
fn added_effect(
    list: Option<KeptEffects>,
    effect: Option<KeptEffect>,
    keep: Keep,
) -> Result<Option<KeptEffects>, AllocError>
    ensures { IfOk result (λ longer. longer ≡ added_effect_of keep list effect) }
{
    match (list, effect) {
        (Some(mut list), Some(effect)) => {
            let nodes = list.nodes.saturating_add(effect.nodes);
            if nodes > usize::from(keep.most) {
                return Ok(None);
            }
            list.effects.push(effect.effect)?;
            list.nodes = nodes;
            Ok(Some(list))
        }
        _ => Ok(None),
    }
}

/// A statement, or an empty block where trees aren't kept.
fn shown_effect(alloc: Global, effect: Effect, keep: Keep) -> Effect
    ensures { result ≡ shown_effect_of keep effect }
{
    if keep.trees {
        effect
    } else {
        Effect::Block {
            effects: Items::new(alloc),
        }
    }
}

/// Keeps a statement of so many nodes, unless they are too many.
fn keep_effect(
    alloc: Global,
    first: usize,
    second: usize,
    effect: Effect,
    keep: Keep,
) -> Option<KeptEffect>
    ensures { result ≡ kept_effect keep (first + second) effect }
{
    let nodes = first.saturating_add(second);
    if nodes > usize::from(keep.most) {
        None
    } else {
        Some(KeptEffect {
            effect: shown_effect(alloc, effect, keep),
            nodes,
        })
    }
}

fn block(alloc: Global, effects: Option<KeptEffects>, keep: Keep) -> Option<KeptEffect>
    ensures { result ≡ block_over keep effects }
{
    match effects {
        None => None,
        Some(list) => keep_effect(
            alloc,
            list.nodes,
            0,
            Effect::Block {
                effects: list.effects,
            },
            keep,
        ),
    }
}

fn choice_alone(
    alloc: Global,
    condition_at: usize,
    condition: Option<Kept>,
    then: Option<KeptEffect>,
    keep: Keep,
) -> Result<Option<KeptEffect>, AllocError>
    ensures { IfOk result (λ it. it ≡ kept_if keep condition_at condition then) }
{
    match (condition, then) {
        (Some(condition), Some(then)) => {
            let nodes = condition.nodes.saturating_add(then.nodes);
            let then = Boxed::new(alloc, then.effect)?;
            let effect = Effect::If {
                condition_at,
                condition: condition.tree,
                then,
                otherwise: None,
            };
            Ok(keep_effect(alloc, 1, nodes, effect, keep))
        }
        _ => Ok(None),
    }
}

fn choice(
    alloc: Global,
    condition_at: usize,
    condition: Option<Kept>,
    then: Option<KeptEffect>,
    otherwise: Option<KeptEffect>,
    keep: Keep,
) -> Result<Option<KeptEffect>, AllocError>
    ensures { IfOk result (λ it. it ≡ kept_if_else keep condition_at condition then otherwise) }
{
    match (condition, then, otherwise) {
        (Some(condition), Some(then), Some(otherwise)) => {
            let nodes = then.nodes.saturating_add(otherwise.nodes);
            let nodes = condition.nodes.saturating_add(nodes);
            let then = Boxed::new(alloc, then.effect)?;
            let otherwise = Boxed::new(alloc, otherwise.effect)?;
            let effect = Effect::If {
                condition_at,
                condition: condition.tree,
                then,
                otherwise: Some(otherwise),
            };
            Ok(keep_effect(alloc, 1, nodes, effect, keep))
        }
        _ => Ok(None),
    }
}

fn assign(
    alloc: Global,
    target: Target,
    parts: Option<KeptList>,
    value_at: usize,
    value: Option<Kept>,
    keep: Keep,
) -> Option<KeptEffect>
    ensures { result ≡ assign_over keep target parts value_at value }
{
    match (parts, value) {
        (Some(parts), Some(value)) => keep_effect(
            alloc,
            parts.nodes,
            value.nodes,
            Effect::Assign {
                target,
                parts: parts.trees,
                value_at,
                value: value.tree,
            },
            keep,
        ),
        _ => None,
    }
}

/// What a statement writes.
fn state_target(
    alloc: Global,
    goal: &Goal,
    context: &Context,
    names: &Names,
) -> Result<Target, AllocError>
    ensures { IfOk result (λ target. target ≡ target_of (keeping_as context.now.keep) (items_of context.now) (known_in context.now) goal.now (inner_at context.now names.now)) }
{
    match goal {
        Goal::Name(name) => Ok(Target::Resource {
            item: number(context, name.text.as_slice()),
            at: name.at,
        }),
        Goal::Indexed { name, index } => Ok(Target::Indexed {
            item: number(context, name.text.as_slice()),
            at: name.at,
            index_at: start_of(index.get()),
        }),
        Goal::Access {
            memory,
            size,
            address,
            ..
        } => {
            let size = inline(alloc, size.get(), context, names)?;
            Ok(Target::Access {
                at: memory.at,
                size: size.worth,
                address_at: start_of(address.get()),
            })
        }
    }
}

/// The index or address of what a statement writes.
fn state_parts(
    alloc: Global,
    goal: &Goal,
    context: &Context,
    names: &Names,
) -> Result<Option<KeptList>, AllocError>
    ensures { IfOk result (λ parts. parts ≡ gathered context.now.keep no_trees_of (target_parts (keeping_as context.now.keep) (items_of context.now) (known_in context.now) goal.now (inner_at context.now names.now))) }
{
    match goal {
        Goal::Name(_) => Ok(no_trees(alloc)),
        Goal::Indexed { index, .. } => {
            inline_part(alloc, index.get(), no_trees(alloc), context, names)
        }
        Goal::Access { address, .. } => {
            inline_part(alloc, address.get(), no_trees(alloc), context, names)
        }
    }
}

/// What is written, and where.
fn state_assign(
    alloc: Global,
    goal: &Goal,
    value: &Expr,
    context: &Context,
    names: &Names,
) -> Result<Option<KeptEffect>, AllocError>
    ensures { IfOk result (λ effect. effect ≡ assign_over context.now.keep (target_of (keeping_as context.now.keep) (items_of context.now) (known_in context.now) goal.now (inner_at context.now names.now)) (gathered context.now.keep no_trees_of (target_parts (keeping_as context.now.keep) (items_of context.now) (known_in context.now) goal.now (inner_at context.now names.now))) (start_of_expression value.now) (tree_at context.now names.now value.now)) }
{
    let target = state_target(alloc, goal, context, names)?;
    let parts = state_parts(alloc, goal, context, names)?;
    let value_at = start_of(value);
    let value = inline(alloc, value, context, names)?;
    Ok(assign(alloc, target, parts, value_at, value.tree, context.keep))
}

/// A statement with everything in place of its names; None where it has too many nodes.
#[cycle(state)]
#[tactic(auto, using(crate::proofs::StateLemmas::state_steps))]
pub(crate) fn state(
    alloc: Global,
    statement: &Statement,
    context: &Context,
    names: &Names,
) -> Result<Option<KeptEffect>, AllocError>
    ensures { IfOk result (λ effect. effect ≡ effect_at context.now names.now statement.now) }
{
    match statement {
        Statement::Block { statements, .. } => {
            let effects = state_all(alloc, statements.as_slice(), context, names)?;
            Ok(block(alloc, effects, context.keep))
        }
        Statement::Let {
            name,
            bound,
            body,
            ..
        } => {
            let value = inline(alloc, bound.get(), context, names)?;
            let within = Names::Let {
                name,
                value: &value,
                outer: &*names,
            };
            state(alloc, body.get(), context, &within)
        }
        Statement::If {
            condition,
            then,
            otherwise,
            ..
        } => {
            let condition_at = start_of(condition.get());
            let condition = inline(alloc, condition.get(), context, names)?;
            let then = state(alloc, then.get(), context, names)?;
            match otherwise {
                None => choice_alone(alloc, condition_at, condition.tree, then, context.keep),
                Some(other) => {
                    let other = state(alloc, other.get(), context, names)?;
                    choice(
                        alloc,
                        condition_at,
                        condition.tree,
                        then,
                        other,
                        context.keep,
                    )
                }
            }
        }
        Statement::Assign { goal, value } => {
            state_assign(alloc, goal, value.get(), context, names)
        }
    }
}

/// A statement behind others; nothing is made behind too many nodes.
#[cycle(state)]
fn state_next(
    alloc: Global,
    statement: &Statement,
    effects: Option<KeptEffects>,
    context: &Context,
    names: &Names,
) -> Result<Option<KeptEffects>, AllocError>
    ensures { IfOk result (λ longer. longer ≡ added_effect_of context.now.keep effects (effect_at context.now names.now statement.now)) }
{
    match effects {
        None => Ok(None),
        Some(effects) => {
            let effect = state(alloc, statement, context, names)?;
            added_effect(Some(effects), effect, context.keep)
        }
    }
}

/// Statements one behind the other.
#[cycle(state)]
fn state_all(
    alloc: Global,
    statements: &[Statement],
    context: &Context,
    names: &Names,
) -> Result<Option<KeptEffects>, AllocError>
    ensures { IfOk result (λ effects. effects ≡ gathered_effects context.now.keep no_effects_of (map (effect_at context.now names.now) statements.now)) }
{
    let mut effects = no_effects(alloc);
    for statement in statements {
        effects = state_next(alloc, statement, effects, context, names)?;
    }
    Ok(effects)
}
