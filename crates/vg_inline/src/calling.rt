//! Bodies of functions with arguments in place of their parameters.
ghost use Rattle.std.specs.Prelude.{◌≡◌, ◌+◌, ◌++◌, map, slice_get, IfOk, OnOk};
ghost use Rattle.std.specs.Option.{option_copied};
ghost use Rattle.vg_inline.specs.Kept.{argument_nodes as argument_nodes_of, argument_parameters as argument_parameters_of, filling, gathered, kept_argument, kept_body, kept_call, no_trees as no_trees_of, nodes_of, parameters_in as parameters_in_arguments};
ghost use Rattle.vg_inline.specs.Counting.{capped};

use crate::copying::copy_kept;
use crate::keep::Keep;
use crate::keeping::{added, missing, no_trees, node};
use crate::kept::{Kept, KeptList};
use crate::parameter::parameter_of;
use crate::{Head, Tree};
use sqlite_items::Items;
use std::alloc::{AllocError, Global};

fn argument_at(arguments: &[Option<Kept>], parameter: usize) -> Option<&Option<Kept>>
    ensures { option_copied result ≡ slice_get arguments.now parameter }
{
    arguments.get(parameter)
}

/// What stands in place of a parameter.
fn argument(
    alloc: Global,
    arguments: &[Option<Kept>],
    parameter: usize,
    keep: Keep,
) -> Result<Option<Kept>, AllocError>
    ensures { IfOk result (λ tree. tree ≡ kept_argument keep (slice_get arguments.now parameter)) }
{
    match argument_at(arguments, parameter) {
        None => missing(alloc, keep),
        Some(argument) => copy_kept(alloc, argument),
    }
}

/// A tree with arguments in place of its parameters.
#[cycle(fill)]
#[tactic(auto, using(crate::proofs::Filling::filling_tree))]
fn fill(
    alloc: Global,
    tree: &Tree,
    arguments: &[Option<Kept>],
    keep: Keep,
) -> Result<Option<Kept>, AllocError>
    ensures { IfOk result (λ filled. filled ≡ filling keep arguments.now tree.now) }
{
    match parameter_of(tree) {
        Some(parameter) => argument(alloc, arguments, parameter, keep),
        None => {
            let parts = fill_all(alloc, tree.parts.as_slice(), arguments, keep)?;
            node(alloc, tree.head, parts, keep)
        }
    }
}

#[cycle(fill)]
fn fill_all(
    alloc: Global,
    trees: &[Tree],
    arguments: &[Option<Kept>],
    keep: Keep,
) -> Result<Option<KeptList>, AllocError>
    ensures { IfOk result (λ list. list ≡ gathered keep no_trees_of (map (filling keep arguments.now) trees.now)) }
{
    let mut list = no_trees(alloc);
    for tree in trees {
        let filled = fill(alloc, tree, arguments, keep)?;
        list = added(list, filled, keep)?;
    }
    Ok(list)
}

/// A sum of numbers of nodes; those that are too great aren't told apart.
fn sum(a: usize, b: usize, keep: Keep) -> usize
    ensures { result ≡ capped keep (a + b) }
{
    a.saturating_add(b).min(usize::from(keep.most) + 1)
}

/// How many nodes stand in place of a parameter, and too many where nothing is kept of its argument.
fn argument_nodes(arguments: &[Option<Kept>], parameter: usize, keep: Keep) -> usize
    ensures { result ≡ argument_nodes_of keep (slice_get arguments.now parameter) }
{
    match argument_at(arguments, parameter) {
        None => 0,
        Some(None) => usize::from(keep.most) + 1,
        Some(Some(kept)) => kept.nodes,
    }
}

/// So many nodes, and those of the arguments in place of these parameters.
#[tactic(auto, using(crate::proofs::CallLemmas::counting_more, crate::proofs::CallLemmas::counting_all))]
fn nodes_with(first: usize, arguments: &[Option<Kept>], parameters: &[usize], keep: Keep) -> usize
    ensures { result ≡ capped keep (first + nodes_of keep arguments.now parameters.now) }
{
    let mut total = sum(first, 0, keep);
    for parameter in parameters {
        total = sum(total, argument_nodes(arguments, *parameter, keep), keep);
    }
    total
}

/// Puts the parameters that stand in place of a parameter behind others.
fn push_parameters(
    list: &mut Vec<usize>,
    arguments: &[Option<Kept>],
    parameter: usize,
) -> Result<(), AllocError>
    ensures { OnOk result (list.new.items ≡ list.old.items ++ argument_parameters_of (slice_get arguments.now parameter)) }
{
    match argument_at(arguments, parameter) {
        Some(Some(kept)) => list.extend_from_slice(kept.parameters.as_slice()),
        _ => Ok(()),
    }
}

/// The parameters in the arguments in place of these parameters.
#[tactic(auto, using(crate::proofs::CallLemmas::listing_more, crate::proofs::CallLemmas::listing_all))]
fn parameters_in(
    alloc: Global,
    arguments: &[Option<Kept>],
    parameters: &[usize],
) -> Result<Items<usize>, AllocError>
    ensures { IfOk result (λ list. list ≡ parameters_in_arguments arguments.now parameters.now) }
{
    let mut list = Vec::new(alloc);
    for parameter in parameters {
        push_parameters(&mut list, arguments, *parameter)?;
    }
    Ok(Items::from_vec(list))
}

/// A body with arguments in it, of so many nodes.
fn instantiate(
    alloc: Global,
    arguments: &[Option<Kept>],
    body: &Kept,
    nodes: usize,
    keep: Keep,
) -> Result<Option<Kept>, AllocError>
    ensures { IfOk result (λ tree. tree ≡ kept_body keep arguments.now body.now nodes) }
{
    if keep.trees {
        return fill(alloc, &body.tree, arguments, keep);
    }
    let tree = Tree {
        head: Head::Missing,
        parts: Items::new(alloc),
    };
    let parameters = parameters_in(alloc, arguments, body.parameters.as_slice())?;
    Ok(Some(Kept {
        tree,
        nodes,
        parameters,
    }))
}

/// The body of a function with these arguments in it, unless that has too many nodes.
#[tactic(auto, using(crate::proofs::CallLemmas::call_made, crate::proofs::CallLemmas::call_refused))]
pub(crate) fn call(
    alloc: Global,
    arguments: &[Option<Kept>],
    body: &Option<Kept>,
    keep: Keep,
) -> Result<Option<Kept>, AllocError>
    ensures { IfOk result (λ tree. tree ≡ kept_call keep arguments.now body.now) }
{
    match body {
        None => Ok(None),
        Some(body) => {
            let nodes = nodes_with(body.nodes, arguments, body.parameters.as_slice(), keep);
            // Before anything is made.
            if nodes > usize::from(keep.most) {
                return Ok(None);
            }
            instantiate(alloc, arguments, body, nodes, keep)
        }
    }
}
