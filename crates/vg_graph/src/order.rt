//! The nodes that a node uses, operands first.
ghost use Rattle.std.specs.Prelude.{◌≡◌, ◌<◌, false, true, length, replicate, slice_get, slice_index_or, slice_set, Some, IfOk};
ghost use Rattle.vg_graph.specs.Node.{args_of, AllBelow, IsIn};
ghost use Rattle.vg_graph.specs.Order.{AreTrees, IsOrder, first_unmarked_in};

use crate::node::Node;
use crate::operands::Operands;
use std::alloc::{AllocError, Global};

/// No number below a count is marked.
fn no_marks(alloc: Global, count: usize) -> Result<Vec<bool>, AllocError>
    ensures { IfOk result (λ marks. marks.items ≡ replicate count false) }
{
    let marks = vec![in alloc; false; count]?;
    Ok(marks)
}

/// The node of this number.
pub fn node_at(nodes: &[Node], n: u32) -> &Node
    requires { n < length nodes.now }
    ensures { slice_get nodes.now n ≡ Some result.now }
{
    &nodes[n as usize]
}

/// Whether a number is marked.
fn is_marked(marks: &[bool], n: u32) -> bool
    requires { n < length marks.now }
    ensures { result ≡ slice_index_or marks.now n false }
{
    marks[n as usize]
}

/// Marks a number.
fn mark(marks: &mut Vec<bool>, n: u32)
    requires { n < length marks.old.items }
    ensures { marks.new.items ≡ slice_set marks.old.items n true }
{
    marks[n as usize] = true;
}

/// The first operand of a node that isn't marked; None where all are.
fn first_unmarked(marks: &[bool], node: &Node) -> Option<u32>
    requires { AllBelow (length marks.now) (args_of node.now) }
    ensures { result ≡ first_unmarked_in marks.now (args_of node.now) }
{
    match node.args {
        Operands::Zero => None,
        Operands::One(a) => {
            if !is_marked(marks, a) {
                return Some(a);
            }
            None
        }
        Operands::Two(a, b) => {
            if !is_marked(marks, a) {
                return Some(a);
            }
            if is_marked(marks, b) { None } else { Some(b) }
        }
        Operands::Three(a, b, c) => {
            if !is_marked(marks, a) {
                return Some(a);
            }
            if !is_marked(marks, b) {
                return Some(b);
            }
            if is_marked(marks, c) { None } else { Some(c) }
        }
    }
}

/// The nodes that a node uses and itself, each behind its operands.
pub fn operands_first(alloc: Global, nodes: &[Node], root: u32) -> Result<Vec<u32>, AllocError>
    requires trees { AreTrees nodes.now }
    requires within { root < length nodes.now }
    ensures order { IfOk result (λ order. IsOrder nodes.now order.items) }
    ensures root { IfOk result (λ order. IsIn order.items root) }
{
    let mut order = Vec::new(alloc);
    let mut placed = no_marks(alloc, nodes.len())?;
    let mut opened = no_marks(alloc, nodes.len())?;
    let mut stack = Vec::new(alloc);
    stack.push(root)?;
    while let Some(n) = stack.pop() {
        let waiting = first_unmarked(placed.as_slice(), node_at(nodes, n));
        if let Some(k) = waiting {
            mark(&mut opened, k);
            stack.push(n)?;
            stack.push(k)?;
            continue;
        }
        mark(&mut placed, n);
        order.push(n)?;
    }
    Ok(order)
}
