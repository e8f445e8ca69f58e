//! The values of nodes.
ghost use Rattle.std.specs.Prelude.{◌≡◌, ◌≢◌, ℕ, ◌<◌, length, Some, IsSome, IfOk, OnOk};
ghost use Rattle.vg_bits.specs.BitValue.{IsBitValue};
ghost use Rattle.vg_isa.specs.Value.{HasDeclaredWidths};
ghost use Rattle.vg_graph.specs.Node.{args_of, AllBelow, IsIn};
ghost use Rattle.vg_graph.specs.Tree.{HaveTrees};
ghost use Rattle.vg_graph.specs.Order.{IsOrder};
ghost use Rattle.vg_graph.specs.Evaluation.{AreBitValues, AreOperandsWorth, IsWorth, constant_at, leaf_over, one_over, three_over, tree_over, two_over, value_in};

use crate::node::Node;
use crate::operands::Operands;
use crate::operator::Op;
use crate::order::{node_at, operands_first};
use sqlite_items::Boxed;
use std::alloc::{AllocError, Global};
use vg_bits::{Bits, Width};
use vg_isa::{Expr, Isa, View, eval};

/// The value that is kept for a node, as a tree.
fn constant(alloc: Global, values: &[Bits], n: u32) -> Result<Boxed<Expr>, AllocError>
    requires { n < length values.now }
    ensures tree { IfOk result (λ e. e ≡ constant_at values.now n) }
    ensures bits { IsBitValue (value_in values.now n) }
{
    let b = values[n as usize];
    // What a value keeps is told by the calls.
    let _ = (b.width(), b.value());
    Boxed::new(alloc, Expr::Const(b))
}

fn leaf_tree(op: Op) -> Expr
    requires { IsSome (leaf_over op) }
    ensures { leaf_over op ≡ Some result }
{
    match op {
        Op::Const(b) => Expr::Const(b),
        Op::Field(f) => Expr::Field(f),
        Op::Pc => Expr::Pc,
        Op::Reg(r) => Expr::Reg(r, None),
        _ => unreachable!(),
    }
}

fn one_tree(op: Op, a: Boxed<Expr>) -> Expr
    requires { IsSome (one_over op a) }
    ensures { one_over op a ≡ Some result }
{
    match op {
        Op::Reg(r) => Expr::Reg(r, Some(a)),
        Op::Mem(bytes) => Expr::Mem(a, bytes),
        Op::Unary(o) => Expr::Unary(o, a),
        Op::Cast(o, width) => Expr::Cast(o, width, a),
        Op::Slice(high, low) => Expr::Slice(a, high, low),
        _ => unreachable!(),
    }
}

fn two_tree(op: Op, a: Boxed<Expr>, b: Boxed<Expr>) -> Expr
    requires { IsSome (two_over op a b) }
    ensures { two_over op a b ≡ Some result }
{
    match op {
        Op::Binary(o) => Expr::Binary(o, a, b),
        Op::Join => Expr::Join(a, b),
        _ => unreachable!(),
    }
}

fn three_tree(op: Op, c: Boxed<Expr>, a: Boxed<Expr>, b: Boxed<Expr>) -> Expr
    requires { IsSome (three_over op c a b) }
    ensures { three_over op c a b ≡ Some result }
{
    match op {
        Op::If => Expr::If(c, a, b),
        _ => unreachable!(),
    }
}

/// The operator of a node over the values of its operands, as a tree.
fn level_tree(alloc: Global, node: &Node, values: &[Bits]) -> Result<Expr, AllocError>
    requires within { AllBelow (length values.now) (args_of node.now) }
    requires level { IsSome (tree_over (constant_at values.now) node.now) }
    ensures tree { IfOk result (λ e. tree_over (constant_at values.now) node.now ≡ Some e) }
    ensures bits { OnOk result (AreBitValues values.now (args_of node.now)) }
{
    match node.args {
        Operands::Zero => Ok(leaf_tree(node.op)),
        Operands::One(a) => {
            let a = constant(alloc, values, a)?;
            Ok(one_tree(node.op, a))
        }
        Operands::Two(a, b) => {
            let a = constant(alloc, values, a)?;
            let b = constant(alloc, values, b)?;
            Ok(two_tree(node.op, a, b))
        }
        Operands::Three(c, a, b) => {
            let c = constant(alloc, values, c)?;
            let a = constant(alloc, values, a)?;
            let b = constant(alloc, values, b)?;
            Ok(three_tree(node.op, c, a, b))
        }
    }
}

/// No value is kept yet.
fn no_values(alloc: Global, count: usize) -> Result<Vec<Bits>, AllocError>
    ensures { IfOk result (λ values. length values.items ≡ count) }
{
    let values = vec![in alloc; Bits::of(Width::of(1), 0); count]?;
    Ok(values)
}

/// Keeps the value of a node whose operands have theirs.
fn put_value<V: View>(
    alloc: Global,
    isa: &Isa,
    nodes: &[Node],
    n: u32,
    values: &mut Vec<Bits>,
    word: Bits,
    v: &V,
) -> Result<(), AllocError>
    requires trees { HaveTrees isa.now nodes.now }
    requires within { n < length nodes.now }
    requires count { length values.old.items ≡ length nodes.now }
    requires operands { AreOperandsWorth isa.now nodes.now word.number (V.reads v.now) values.old.items n }
    requires word { word.width ≡ isa.now.word }
    requires registers { V.registers v.now ≡ isa.now.regs }
    requires widths { HasDeclaredWidths isa.now (V.reads v.now) }
    ensures worth { OnOk result (
        IsWorth isa.now nodes.now word.number (V.reads v.now) n (value_in values.new.items n)) }
    ensures others { OnOk result ((k : ℕ) → k ≢ n → value_in values.new.items k ≡ value_in values.old.items k) }
    ensures count { length values.new.items ≡ length values.old.items }
{
    let e = level_tree(alloc, node_at(nodes, n), values.as_slice())?;
    values[n as usize] = eval(isa, &e, word, v);
    Ok(())
}

/// Keeps the values of nodes, in an order in which operands come first.
fn put_values<V: View>(
    alloc: Global,
    isa: &Isa,
    nodes: &[Node],
    order: &[u32],
    values: &mut Vec<Bits>,
    word: Bits,
    v: &V,
) -> Result<(), AllocError>
    requires trees { HaveTrees isa.now nodes.now }
    requires order { IsOrder nodes.now order.now }
    requires count { length values.old.items ≡ length nodes.now }
    requires word { word.width ≡ isa.now.word }
    requires registers { V.registers v.now ≡ isa.now.regs }
    requires widths { HasDeclaredWidths isa.now (V.reads v.now) }
    ensures worth { OnOk result ((n : ℕ) → IsIn order.now n
        → IsWorth isa.now nodes.now word.number (V.reads v.now) n (value_in values.new.items n)) }
    ensures count { OnOk result (length values.new.items ≡ length nodes.now) }
{
    for place in 0..order.len() {
        put_value(alloc, isa, nodes, order[place], values, word, v)?;
    }
    Ok(())
}

/// The value that is kept for a node.
fn kept_value(values: &[Bits], n: u32) -> Bits
    requires { n < length values.now }
    ensures { result ≡ value_in values.now n }
{
    values[n as usize]
}

/// The value of the tree at a node. Each node that it uses is gone into once.
pub fn value_at<V: View>(
    alloc: Global,
    isa: &Isa,
    nodes: &[Node],
    n: u32,
    word: Bits,
    v: &V,
) -> Result<Bits, AllocError>
    requires trees { HaveTrees isa.now nodes.now }
    requires within { n < length nodes.now }
    requires word { word.width ≡ isa.now.word }
    requires registers { V.registers v.now ≡ isa.now.regs }
    requires widths { HasDeclaredWidths isa.now (V.reads v.now) }
    ensures { IfOk result (λ b. IsWorth isa.now nodes.now word.number (V.reads v.now) n b) }
{
    let order = operands_first(alloc, nodes, n)?;
    let mut values = no_values(alloc, nodes.len())?;
    put_values(alloc, isa, nodes, order.as_slice(), &mut values, word, v)?;
    Ok(kept_value(values.as_slice(), n))
}
