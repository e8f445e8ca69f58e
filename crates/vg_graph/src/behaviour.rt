//! The nodes of the parts of an instruction.
ghost use Rattle.std.specs.Prelude.{◌≡◌, IfOk, OnOk, IsTrue};
ghost use Rattle.vg_isa.specs.Accepted.{is_instr, is_next};
ghost use Rattle.vg_isa.specs.Typing.{is_write};
ghost use Rattle.vg_graph.specs.declared.root.Root.{Root as Part};
ghost use Rattle.vg_graph.specs.Graph.{StandsAt, root_of, tree_of};
ghost use Rattle.vg_graph.specs.Building.{Extends};
ghost use Rattle.vg_graph.specs.Behaviour.{IsTypedAt, IsWriteAt, IsNextAt};

use crate::building::add_tree;
use crate::graph::Graph;
use crate::roots::{NextRoots, Roots, WriteRoots};
use sqlite_items::Items;
use std::alloc::{AllocError, Global};
use vg_isa::{Expr, Instr, Write};

/// The node of a tree, where there is one.
#[tactic(auto, using(crate::proofs::BehaviourLemmas::Extends_itself))]
fn add_at(graph: &mut Graph, alloc: Global, at: &Option<Expr>) -> Result<Option<u32>, AllocError>
    requires { IsTypedAt graph.old.isa at.now }
    ensures stands { IfOk result (λ n. StandsAt graph.new.nodes n at.now) }
    ensures extends { OnOk result (Extends graph.old graph.new) }
{
    match at {
        None => Ok(None),
        Some(e) => {
            let n = add_tree(graph, alloc, e)?;
            Ok(Some(n))
        }
    }
}

/// The nodes of a write.
fn add_write(graph: &mut Graph, alloc: Global, write: &Write) -> Result<WriteRoots, AllocError>
    requires { IsTrue (is_write graph.old.isa write.now) }
    ensures stands { IfOk result (λ w. IsWriteAt graph.new.nodes w write.now) }
    ensures extends { OnOk result (Extends graph.old graph.new) }
{
    let guard = add_tree(graph, alloc, &write.guard)?;
    let at = add_at(graph, alloc, &write.at)?;
    let value = add_tree(graph, alloc, &write.value)?;
    Ok(WriteRoots { guard, at, value })
}

/// The nodes of the next program counter, where it is written.
#[tactic(auto, using(crate::proofs::BehaviourLemmas::Extends_itself))]
fn add_next(
    graph: &mut Graph,
    alloc: Global,
    next: &Option<(Expr, Expr)>,
) -> Result<Option<NextRoots>, AllocError>
    requires { IsTrue (is_next graph.old.isa next.now) }
    ensures stands { IfOk result (λ n. IsNextAt graph.new.nodes n next.now) }
    ensures extends { OnOk result (Extends graph.old graph.new) }
{
    match next {
        None => Ok(None),
        Some((guard, value)) => {
            let guard = add_tree(graph, alloc, guard)?;
            let value = add_tree(graph, alloc, value)?;
            Ok(Some(NextRoots { guard, value }))
        }
    }
}

/// The nodes of the parts of an instruction.
pub fn add_parts(graph: &mut Graph, alloc: Global, instr: &Instr) -> Result<Roots, AllocError>
    requires { IsTrue (is_instr graph.old.isa instr.now) }
    ensures stand { IfOk result (λ roots. (r : Part) → StandsAt graph.new.nodes (root_of roots r) (tree_of instr.now r)) }
    ensures extends { OnOk result (Extends graph.old graph.new) }
{
    let mut writes = Vec::new(alloc);
    for write in instr.writes.as_slice() {
        let roots = add_write(graph, alloc, write)?;
        writes.push(roots)?;
    }
    let next = add_next(graph, alloc, &instr.next)?;
    Ok(Roots {
        writes: Items::from_vec(writes),
        next,
    })
}
