ghost use Rattle.std.specs.Prelude.{◌≡◌, ◌<◌, ◌≤◌, ◌&&◌, length, nat_lt, slice_index_or, IfOk, OnOk};
ghost use Rattle.vg_graph.specs.Graph.{IsFit};
ghost use Rattle.vg_graph.specs.Building.{Extends};
ghost use Rattle.vg_graph.specs.declared.operator.Op.TheVariants as kind;
ghost use Rattle.vg_graph.specs.declared.operands.Operands.TheVariants as args;
ghost use Rattle.vg_graph.specs.Alike.{commutes};
ghost use Rattle.vg_norm.specs.Growing.{HasNodeWidth, IsBareNode, IsGrowing, IsOrderedNode, StandsFor};

use crate::width::{node_width, sliced};
use std::alloc::{AllocError, Global};
use vg_bits::Width;
use vg_graph::{Graph, Node, Op, Operands};
use vg_isa::{BinOp, CastOp, Isa};

/// A graph in normal form that grows, with the width of each of its nodes.
#[derive(Drop)]
pub struct Growing<'a> {
    pub graph: Graph<'a>,
    pub widths: Vec<Width>,
}

/// Whether the operands of an operator may stand in either order.
fn is_commuting(op: BinOp) -> bool
    ensures { result ≡ commutes op }
{
    match op {
        BinOp::Add | BinOp::Mul | BinOp::And | BinOp::Or | BinOp::Xor | BinOp::Eq => true,
        _ => false,
    }
}

/// Whether two operands don't stand in their order, and may stand in either.
fn must_turn(op: BinOp, a: u32, b: u32) -> bool
    ensures { result ≡ (commutes op && nat_lt b a) }
{
    is_commuting(op) && b < a
}

impl<'a> Growing<'a> {
    /// A graph without nodes.
    pub fn new(alloc: Global, isa: &'a Isa) -> Result<Growing<'a>, AllocError>
        ensures growing { IfOk result (λ g. IsGrowing g) }
        ensures isa { IfOk result (λ g. g.graph.isa ≡ isa.now) }
    {
        let graph = Graph::empty(alloc, isa)?;
        // What a graph keeps is told by the call.
        let _ = graph.isa();
        let widths = Vec::new(alloc);
        Ok(Growing { graph, widths })
    }

    /// The width of a node that is to be added.
    fn width(&self, node: &Node) -> Width
        requires growing { IsGrowing self.now }
        requires fit { IsFit self.now.graph node.now }
        ensures { HasNodeWidth self.now.graph node.now result }
    {
        node_width(self.graph.isa(), self.widths.as_slice(), node)
    }

    /// The width of a node.
    fn width_of(&self, a: u32) -> Width
        requires { a < length self.now.widths.items }
        ensures width { result ≡ slice_index_or self.now.widths.items a 0 }
        ensures most { result ≤ 128 }
    {
        let width = self.widths.as_slice()[a as usize];
        // How wide it may be is told by the call.
        let _ = width.bits();
        width
    }

    /// Adds a node as it is.
    fn put(&mut self, node: &Node) -> Result<u32, AllocError>
        requires growing { IsGrowing self.old }
        requires fit { IsFit self.old.graph node.now }
        requires bare { IsBareNode self.old.graph node.now }
        requires ordered { IsOrderedNode node.now }
        ensures growing { OnOk result (IsGrowing self.new) }
        ensures extends { OnOk result (Extends self.old.graph self.new.graph) }
        ensures stands { IfOk result (λ n. StandsFor self.old.graph node.now self.new.graph n) }
    {
        let width = self.width(node);
        let n = self.graph.add_or_refuse(Node {
            op: node.op,
            args: node.args,
        })?;
        if n as usize == self.widths.as_slice().len() {
            self.widths.push(width)?;
            return Ok(n);
        }
        Ok(n)
    }

    /// Adds a cast, where it changes the width.
    fn add_cast(&mut self, op: CastOp, width: Width, a: u32) -> Result<u32, AllocError>
        requires growing { IsGrowing self.old }
        requires fit { IsFit self.old.graph (record { op = kind.Cast op width; args = args.One a }) }
        ensures growing { OnOk result (IsGrowing self.new) }
        ensures extends { OnOk result (Extends self.old.graph self.new.graph) }
        ensures stands { IfOk result (λ n. StandsFor self.old.graph (record { op = kind.Cast op width; args = args.One a }) self.new.graph n) }
    {
        if self.width_of(a).bits() == width.bits() {
            return Ok(a);
        }
        let n = self.put(&Node {
            op: Op::Cast(op, width),
            args: Operands::One(a),
        })?;
        Ok(n)
    }

    /// Adds a slice; where it is from bit 0, as a cast.
    fn add_slice(&mut self, high: u8, low: u8, a: u32) -> Result<u32, AllocError>
        requires growing { IsGrowing self.old }
        requires fit { IsFit self.old.graph (record { op = kind.Slice high low; args = args.One a }) }
        ensures growing { OnOk result (IsGrowing self.new) }
        ensures extends { OnOk result (Extends self.old.graph self.new.graph) }
        ensures stands { IfOk result (λ n. StandsFor self.old.graph (record { op = kind.Slice high low; args = args.One a }) self.new.graph n) }
    {
        if low == 0 {
            let width = sliced(self.width_of(a), high, 0);
            let n = self.add_cast(CastOp::Cut, width, a)?;
            return Ok(n);
        }
        let n = self.put(&Node {
            op: Op::Slice(high, low),
            args: Operands::One(a),
        })?;
        Ok(n)
    }

    /// Adds a binary operator, with its operands in their order where they may stand in either.
    fn add_binary(&mut self, op: BinOp, a: u32, b: u32) -> Result<u32, AllocError>
        requires growing { IsGrowing self.old }
        requires fit { IsFit self.old.graph (record { op = kind.Binary op; args = args.Two a b }) }
        ensures growing { OnOk result (IsGrowing self.new) }
        ensures extends { OnOk result (Extends self.old.graph self.new.graph) }
        ensures stands { IfOk result (λ n. StandsFor self.old.graph (record { op = kind.Binary op; args = args.Two a b }) self.new.graph n) }
    {
        if must_turn(op, a, b) {
            let n = self.put(&Node {
                op: Op::Binary(op),
                args: Operands::Two(b, a),
            })?;
            return Ok(n);
        }
        let n = self.put(&Node {
            op: Op::Binary(op),
            args: Operands::Two(a, b),
        })?;
        Ok(n)
    }

    /// A node whose tree is alike to that of this node: the one that is there, or a new one.
    pub fn add(&mut self, node: &Node) -> Result<u32, AllocError>
        requires growing { IsGrowing self.old }
        requires fit { IsFit self.old.graph node.now }
        ensures growing { OnOk result (IsGrowing self.new) }
        ensures extends { OnOk result (Extends self.old.graph self.new.graph) }
        ensures stands { IfOk result (λ n. StandsFor self.old.graph node.now self.new.graph n) }
    {
        match node.op {
            Op::Cast(op, width) => match node.args {
                Operands::One(a) => self.add_cast(op, width, a),
                _ => unreachable!(),
            },
            Op::Slice(high, low) => match node.args {
                Operands::One(a) => self.add_slice(high, low, a),
                _ => unreachable!(),
            },
            Op::Binary(op) => match node.args {
                Operands::Two(a, b) => self.add_binary(op, a, b),
                _ => unreachable!(),
            },
            _ => self.put(node),
        }
    }
}
