ghost use Rattle.std.specs.Prelude.{◌≡◌, [], IfSome, IsTrue};
ghost use Rattle.vg_bits.specs.BitValue.{BitValue};
ghost use Rattle.vg_graph.specs.declared.operator.Op.TheVariants as kind;
ghost use Rattle.vg_graph.specs.declared.operands.Operands.TheVariants as operands;

use crate::described::description;
use crate::normal;
use std::alloc::AllocError;
use std::test::Fail;
use vg_graph::{Graph, Node, Op, Operands, Root};
use vg_isa::{BinOp, InstrId};

/// Whether these edges name a node, in this order, each as a node and the place among its operands.
fn has_users(graph: &Graph, n: u32, edges: &[(u32, u8)]) -> bool {
    if n >= graph.count() {
        return false;
    }
    let mut current = graph.first_user(n);
    for edge in edges {
        let Some(e) = current else {
            return false;
        };
        if graph.user(e) != *edge {
            return false;
        }
        current = graph.next_user(e);
    }
    current.is_none()
}

/// Whether a node is the product of these two.
fn is_product(graph: &Graph, n: u32, a: u32, b: u32) -> bool {
    if n >= graph.count() {
        return false;
    }
    let product = Node {
        op: Op::Binary(BinOp::Mul),
        args: Operands::Two(a, b),
    };
    *graph.node(n) == product
}

/// Whether a node is the program counter.
fn is_pc(node: &Node) -> bool
    ensures { IsTrue result → node.now ≡ record { op = kind.Pc; args = operands.Zero } }
{
    matches!(
        node,
        Node {
            op: Op::Pc,
            args: Operands::Zero
        }
    )
}

/// The width of a node that is a constant; None for any other.
fn constant_width(node: &Node) -> Option<u8>
    ensures { IfSome result (λ width. (b : BitValue)
        × (node.now ≡ record { op = kind.Const b; args = operands.Zero }) × (b.width ≡ width)) }
{
    match *node {
        Node {
            op: Op::Const(b),
            args: Operands::Zero,
        } => Some(b.width().bits()),
        _ => None,
    }
}

/// Puts the node `new` in place of `old`, where `old` is the program counter and `new` a constant of its width.
fn replace_pc(graph: &mut Graph, old: u32, new: u32) -> bool
    ensures { graph.new.isa ≡ graph.old.isa }
{
    if old >= graph.count() || new >= graph.count() || !is_pc(graph.node(old)) {
        return false;
    }
    let Some(width) = constant_width(graph.node(new)) else {
        return false;
    };
    if width != graph.isa().pc().width.bits() {
        return false;
    }
    graph.replace_uses(old, new);
    true
}

/// The program counter as a node, which is there or is made.
fn add_pc(graph: &mut Graph) -> Result<u32, AllocError> {
    graph.add_or_refuse(Node {
        op: Op::Pc,
        args: Operands::Zero,
    })
}

/// Whether the nodes of (PC + 4) * (4 + PC) are these: 1, PC, 4, the two sums, and the product.
fn is_shared(graph: &Graph) -> bool {
    let roots = graph.root(Root::NextGuard) == Some(0) && graph.root(Root::NextValue) == Some(5);
    let users = has_users(graph, 1, &[(3, 0), (4, 1)]) && has_users(graph, 2, &[(3, 1), (4, 0)]);
    graph.count() == 6 && roots && users && has_users(graph, 5, &[])
}

/// Equal nodes are one, and are found again.
#[test]
fn equal_nodes_are_one(rt: HostRuntime) -> Result<(), Fail> {
    let isa = description(rt.alloc())?;
    let mut graph = Graph::of(rt.alloc(), &isa, InstrId(0))?;
    assert!(rt; is_shared(&graph));
    assert_eq!(rt; add_pc(&mut graph)?, 1);
    Ok(())
}

/// All users are moved, and the nodes stay.
#[test]
fn users_are_moved(rt: HostRuntime) -> Result<(), Fail> {
    let isa = description(rt.alloc())?;
    let mut graph = Graph::of(rt.alloc(), &isa, InstrId(0))?;
    assert!(rt; replace_pc(&mut graph, 1, 2) && has_users(&graph, 1, &[]));
    let moved = has_users(&graph, 2, &[(3, 1), (4, 0), (3, 0), (4, 1)]);
    assert!(rt; moved);
    Ok(())
}

/// In the normal form the two sums are one node. Without the memory for it all stays.
#[test]
fn sums_in_either_order_are_one(rt: HostRuntime) -> Result<(), Fail> {
    let isa = description(rt.alloc())?;
    let mut graph = Graph::of(rt.alloc(), &isa, InstrId(0))?;
    if normal(rt.alloc(), &mut graph).is_err() {
        assert!(rt; is_shared(&graph));
        return Ok(());
    }
    let root = graph.count() == 5 && graph.root(Root::NextValue) == Some(4);
    assert!(rt; root && is_product(&graph, 4, 3, 3));
    Ok(())
}
