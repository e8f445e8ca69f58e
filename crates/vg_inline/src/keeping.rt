//! Trees are kept as long as they don't have too many nodes.
ghost use Rattle.std.specs.Prelude.{◌≡◌, ◌+◌, [], IfOk};
ghost use Rattle.vg_inline.specs.Size.{head_nodes as head_nodes_of};
ghost use Rattle.vg_inline.specs.Kept.{added as added_of, kept, kept_missing, kept_node, no_trees as no_trees_of, node_over, shown as shown_of};

use crate::keep::Keep;
use crate::kept::{Kept, KeptList};
use crate::parameter::parameter_of;
use crate::{Head, Tree};
use sqlite_items::Items;
use std::alloc::{AllocError, Global};

#[tactic(auto, using(crate::proofs::WholeBehaviours::same_excesses))]
pub(crate) fn no_trees(alloc: Global) -> Option<KeptList>
    ensures { result ≡ no_trees_of }
{
    Some(KeptList {
        trees: Items::new(alloc),
        nodes: 0,
        parameters: Items::new(alloc),
    })
}

/// A tree behind others.
pub(crate) fn added(
    list: Option<KeptList>,
    tree: Option<Kept>,
    keep: Keep,
) -> Result<Option<KeptList>, AllocError>
    ensures { IfOk result (λ longer. longer ≡ added_of keep list tree) }
{
    match (list, tree) {
        (Some(mut list), Some(tree)) => {
            let nodes = list.nodes.saturating_add(tree.nodes);
            if nodes > usize::from(keep.most) {
                return Ok(None);
            }
            list.trees.push(tree.tree)?;
            list.parameters.append(tree.parameters)?;
            list.nodes = nodes;
            Ok(Some(list))
        }
        _ => Ok(None),
    }
}

/// What a node counts without its parts.
fn head_nodes(head: Head) -> usize
    ensures { result ≡ head_nodes_of head }
{
    match head {
        Head::Parameter { .. } | Head::Missing => 0,
        _ => 1,
    }
}

/// A tree, or a leaf where trees aren't kept.
fn shown(alloc: Global, tree: Tree, keep: Keep) -> Tree
    ensures { result ≡ shown_of keep tree }
{
    if keep.trees {
        tree
    } else {
        Tree {
            head: Head::Missing,
            parts: Items::new(alloc),
        }
    }
}

/// Keeps a tree of so many nodes, unless they are too many.
fn keep_tree(
    alloc: Global,
    nodes: usize,
    parameters: Items<usize>,
    tree: Tree,
    keep: Keep,
) -> Option<Kept>
    ensures { result ≡ kept keep nodes parameters tree }
{
    if nodes > usize::from(keep.most) {
        None
    } else {
        Some(Kept {
            tree: shown(alloc, tree, keep),
            nodes,
            parameters,
        })
    }
}

/// A node over its parts.
pub(crate) fn node(
    alloc: Global,
    head: Head,
    parts: Option<KeptList>,
    keep: Keep,
) -> Result<Option<Kept>, AllocError>
    ensures { IfOk result (λ tree. tree ≡ node_over keep head parts) }
{
    match parts {
        None => Ok(None),
        Some(list) => {
            let nodes = head_nodes(head).saturating_add(list.nodes);
            let mut parameters = list.parameters;
            let tree = Tree {
                head,
                parts: list.trees,
            };
            if let Some(parameter) = parameter_of(&tree) {
                parameters.push(parameter)?;
            }
            Ok(keep_tree(alloc, nodes, parameters, tree, keep))
        }
    }
}

/// A node without parts.
pub(crate) fn leaf(alloc: Global, head: Head, keep: Keep) -> Result<Option<Kept>, AllocError>
    ensures { IfOk result (λ tree. tree ≡ kept_node keep head []) }
{
    node(alloc, head, no_trees(alloc), keep)
}

/// A parameter that gets no argument.
pub(crate) fn missing(alloc: Global, keep: Keep) -> Result<Option<Kept>, AllocError>
    ensures { IfOk result (λ tree. tree ≡ kept_missing keep) }
{
    leaf(alloc, Head::Missing, keep)
}
