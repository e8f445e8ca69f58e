//! What the instructions of a folded description do, made one at a time.
ghost use Rattle.std.specs.Prelude.{◌≡◌, [], ◌<◌, Some, length, slice_get, IfOk, IfSome, true};
ghost use Rattle.std.specs.List.{list_all};
ghost use Rattle.std.specs.Option.{option_map};
ghost use Rattle.vg_names.specs.Cyclic.{IsOrder};
ghost use Rattle.vg_names.specs.Duplicate.{duplicates};
ghost use Rattle.vg_whole.specs.Worths.{constants_by, constants_of};
ghost use Rattle.vg_inline.specs.Bodies.{AreBodies, trees_up_to as trees_up_to_of};
ghost use Rattle.vg_inline.specs.Context.{aliases_by, bodies_by, items_of, known_in};
ghost use Rattle.vg_inline.specs.Inline.{bodies_of};
ghost use Rattle.vg_inline.specs.InPlace.{behaviour_of, excesses, known_of};
ghost use Rattle.vg_inline.specs.Kept.{counts as counts_of, keeping};
ghost use Rattle.vg_inline.specs.KeptBehaviour.{item_fits};
ghost use Rattle.vg_inline.specs.Rules.{IsFolded};
ghost use Rattle.vg_inline.specs.Types.{aliases_of};

use crate::bodies::{bodies_by_schedule, bodies_kept};
use crate::context::Context;
use crate::instructions::{behaviour_in, first_excess, greatest};
use crate::keep::{Keep, counts};
use crate::kept::Kept;
use crate::plain::Plain;
use crate::schedule::schedule;
use crate::{Declared, Effect};
use sqlite_items::Items;
use std::alloc::{AllocError, Global};
use vg_ast::Desc;
use vg_names::Table;
use vg_whole::Worth;

/// The bodies of the functions of a description, by which what its instructions do is made.
#[derive(Drop)]
pub struct Bodies {
    /// What is kept of each, at the number of its item. None has more nodes than the greatest instruction.
    pub trees: Items<Option<Kept>>,
    pub keep: Keep,
}

/// Trees are kept, up to so many nodes.
fn trees_up_to(most: usize) -> Keep
    ensures { result ≡ trees_up_to_of most }
{
    Keep {
        most: most.min(4096) as u16,
        trees: true,
    }
}

/// Above so many nodes bodies aren't kept as trees all at once.
const MANY_NODES: usize = 262_144;

/// Whether the bodies of up to so many nodes have many together.
fn are_many(bodies: &[Option<Kept>], most: usize) -> bool {
    let mut nodes: usize = 0;
    for body in bodies {
        if let Some(body) = body {
            if body.nodes <= most {
                nodes = nodes.saturating_add(body.nodes);
            }
        }
    }
    nodes > MANY_NODES
}

/// All bodies of the functions, of those of up to so many nodes.
fn all_bodies(
    alloc: Global,
    description: &Desc,
    order: &[usize],
    context: &Context,
    most: usize,
) -> Result<Bodies, AllocError>
    requires table { context.now.table.now.items.now ≡ description.now.items }
    requires distinct { duplicates description.now ≡ [] }
    requires order { IsOrder description.now.items order.now }
    requires keep { context.now.keep ≡ counts_of }
    requires constants { let all = description.now.items in constants_by all context.now.worths.now ≡ constants_of all }
    requires aliases { let all = description.now.items in aliases_by all context.now.aliases.now ≡ aliases_of all (constants_of all) }
    requires bodies { let all = description.now.items in bodies_by all context.now.bodies.now ≡ bodies_of keeping all (constants_of all) (aliases_of all (constants_of all)) }
    requires few { excesses description.now.items ≡ [] }
    requires most { let x = context.now in list_all (item_fits x.keep (items_of x) (known_in x) most) (items_of x) ≡ true }
    ensures { IfOk result (λ bodies. AreBodies description.now.items bodies) }
{
    let keep = trees_up_to(most);
    let trees = bodies_kept(
        alloc,
        description,
        context.table,
        order,
        context.worths,
        context.aliases,
        keep,
    )?;
    Ok(Bodies { trees, keep })
}

/// The bodies of the functions that instructions use, where all are there that one uses.
fn bodies_used(
    alloc: Global,
    description: &Desc,
    order: &[usize],
    context: &Context,
    most: usize,
) -> Result<Option<Bodies>, AllocError>
    requires table { context.now.table.now.items.now ≡ description.now.items }
    requires distinct { duplicates description.now ≡ [] }
    requires order { IsOrder description.now.items order.now }
    requires keep { context.now.keep ≡ counts_of }
    requires constants { let all = description.now.items in constants_by all context.now.worths.now ≡ constants_of all }
    requires aliases { let all = description.now.items in aliases_by all context.now.aliases.now ≡ aliases_of all (constants_of all) }
    requires bodies { let all = description.now.items in bodies_by all context.now.bodies.now ≡ bodies_of keeping all (constants_of all) (aliases_of all (constants_of all)) }
    requires few { excesses description.now.items ≡ [] }
    requires most { let x = context.now in list_all (item_fits x.keep (items_of x) (known_in x) most) (items_of x) ≡ true }
    ensures { IfOk result (λ found. IfSome found (λ bodies. AreBodies description.now.items bodies)) }
{
    let keep = trees_up_to(most);
    let actions = schedule(alloc, context.table, order)?;
    let trees = bodies_by_schedule(
        alloc,
        actions.as_slice(),
        context.table,
        context.worths,
        context.aliases,
        keep,
    )?;
    let made = Context {
        table: context.table,
        worths: context.worths,
        aliases: context.aliases,
        bodies: trees.as_slice(),
        keep,
        parameters: &[],
    };
    match first_excess(alloc, &made)? {
        None => Ok(Some(Bodies { trees, keep })),
        Some(_) => Ok(None),
    }
}

/// The bodies of the functions, where it is known how many nodes each has.
fn bodies_counted(
    alloc: Global,
    description: &Desc,
    order: &[usize],
    context: &Context,
) -> Result<Bodies, AllocError>
    requires table { context.now.table.now.items.now ≡ description.now.items }
    requires distinct { duplicates description.now ≡ [] }
    requires order { IsOrder description.now.items order.now }
    requires keep { context.now.keep ≡ counts_of }
    requires constants { let all = description.now.items in constants_by all context.now.worths.now ≡ constants_of all }
    requires aliases { let all = description.now.items in aliases_by all context.now.aliases.now ≡ aliases_of all (constants_of all) }
    requires bodies { let all = description.now.items in bodies_by all context.now.bodies.now ≡ bodies_of keeping all (constants_of all) (aliases_of all (constants_of all)) }
    requires few { excesses description.now.items ≡ [] }
    ensures { IfOk result (λ bodies. AreBodies description.now.items bodies) }
{
    let most = greatest(alloc, context)?;
    if are_many(context.bodies, most) {
        if let Some(bodies) = bodies_used(alloc, description, order, context, most)? {
            return Ok(bodies);
        }
    }
    all_bodies(alloc, description, order, context, most)
}

/// Makes the bodies of the functions of a folded description.
#[tactic(auto, using(crate::proofs::Few::few_nodes, crate::proofs::Few::none_twice))]
pub fn make_bodies(alloc: Global, table: &Table, plain: &Plain) -> Result<Bodies, AllocError>
    requires folded { IsFolded plain.now.description plain.now }
    requires table { table.now.items.now ≡ plain.now.description.items }
    ensures { IfOk result (λ bodies. AreBodies plain.now.description.items bodies) }
{
    let context = Context {
        table,
        worths: plain.worths.as_slice(),
        aliases: plain.aliases.as_slice(),
        bodies: plain.bodies.as_slice(),
        keep: counts(),
        parameters: &[],
    };
    bodies_counted(alloc, &plain.description, plain.order.as_slice(), &context)
}

/// What the item of a number does, with everything in place of its names; None where it is no instruction.
pub fn behaviour(
    alloc: Global,
    table: &Table,
    plain: &Plain,
    bodies: &Bodies,
    number: usize,
) -> Result<Option<Effect>, AllocError>
    requires folded { IsFolded plain.now.description plain.now }
    requires table { table.now.items.now ≡ plain.now.description.items }
    requires bodies { AreBodies plain.now.description.items bodies.now }
    requires within { number < length plain.now.description.items }
    ensures { let all = plain.now.description.items in IfOk result (λ effect. Some effect ≡ option_map (behaviour_of all (known_of all)) (slice_get all number)) }
{
    let context = Context {
        table,
        worths: plain.worths.as_slice(),
        aliases: plain.aliases.as_slice(),
        bodies: bodies.trees.as_slice(),
        keep: bodies.keep,
        parameters: &[],
    };
    behaviour_in(alloc, &table.items[number], &context)
}
