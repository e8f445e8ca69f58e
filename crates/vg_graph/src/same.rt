//! Whether two nodes are the same, part by part.
ghost use Rattle.std.specs.Prelude.{◌≡◌, ◌↔◌, IsTrue};
ghost use Rattle.vg_graph.specs.Same.{binary_number};

use crate::node::Node;
use crate::operands::Operands;
use crate::operator::Op;
use vg_bits::Bits;
use vg_isa::{BinOp, CastOp, FieldId, UnOp};

#[inline]
fn same_bits(a: Bits, b: Bits) -> bool
    ensures { IsTrue result ↔ (a ≡ b) }
{
    a.width().bits() == b.width().bits() && a.value() == b.value()
}

#[inline]
fn same_field(f: FieldId, g: FieldId) -> bool
    ensures { IsTrue result ↔ (f ≡ g) }
{
    f.format.0 == g.format.0 && f.index == g.index
}

#[inline]
fn same_unary(a: UnOp, b: UnOp) -> bool
    ensures { IsTrue result ↔ (a ≡ b) }
{
    match a {
        UnOp::Not => matches!(b, UnOp::Not),
        UnOp::Neg => matches!(b, UnOp::Neg),
    }
}

#[inline]
fn same_cast(a: CastOp, b: CastOp) -> bool
    ensures { IsTrue result ↔ (a ≡ b) }
{
    match a {
        CastOp::Extend => matches!(b, CastOp::Extend),
        CastOp::SignExtend => matches!(b, CastOp::SignExtend),
        CastOp::Cut => matches!(b, CastOp::Cut),
        CastOp::Keep => matches!(b, CastOp::Keep),
    }
}

/// The place of an operator in the list of all.
#[inline]
fn number(op: BinOp) -> u8
    ensures { result ≡ binary_number op }
{
    match op {
        BinOp::Add => 0,
        BinOp::Sub => 1,
        BinOp::Mul => 2,
        BinOp::MulLong { signed: false } => 3,
        BinOp::MulLong { signed: true } => 4,
        BinOp::Udiv => 5,
        BinOp::Sdiv => 6,
        BinOp::Urem => 7,
        BinOp::Srem => 8,
        BinOp::And => 9,
        BinOp::Or => 10,
        BinOp::Xor => 11,
        BinOp::Shl => 12,
        BinOp::Shr => 13,
        BinOp::Sar => 14,
        BinOp::Eq => 15,
        BinOp::Lt => 16,
        BinOp::Slt => 17,
    }
}

#[inline]
#[tactic(auto, using(crate::proofs::SameLemmas::same_binary))]
fn same_binary(a: BinOp, b: BinOp) -> bool
    ensures { IsTrue result ↔ (a ≡ b) }
{
    number(a) == number(b)
}

#[inline]
fn same_operator(a: Op, b: Op) -> bool
    ensures { IsTrue result ↔ (a ≡ b) }
{
    match a {
        Op::Const(x) => match b {
            Op::Const(y) => same_bits(x, y),
            _ => false,
        },
        Op::Field(x) => match b {
            Op::Field(y) => same_field(x, y),
            _ => false,
        },
        Op::Pc => matches!(b, Op::Pc),
        Op::Reg(x) => match b {
            Op::Reg(y) => x.0 == y.0,
            _ => false,
        },
        Op::Mem(x) => match b {
            Op::Mem(y) => x == y,
            _ => false,
        },
        Op::Unary(x) => match b {
            Op::Unary(y) => same_unary(x, y),
            _ => false,
        },
        Op::Binary(x) => match b {
            Op::Binary(y) => same_binary(x, y),
            _ => false,
        },
        Op::Cast(x, v) => match b {
            Op::Cast(y, w) => same_cast(x, y) && v.bits() == w.bits(),
            _ => false,
        },
        Op::Slice(g, k) => match b {
            Op::Slice(h, l) => g == h && k == l,
            _ => false,
        },
        Op::Join => matches!(b, Op::Join),
        Op::If => matches!(b, Op::If),
    }
}

#[inline]
fn same_operands(a: Operands, b: Operands) -> bool
    ensures { IsTrue result ↔ (a ≡ b) }
{
    match a {
        Operands::Zero => matches!(b, Operands::Zero),
        Operands::One(x) => match b {
            Operands::One(u) => x == u,
            _ => false,
        },
        Operands::Two(x, y) => match b {
            Operands::Two(u, v) => x == u && y == v,
            _ => false,
        },
        Operands::Three(x, y, z) => match b {
            Operands::Three(u, v, w) => x == u && y == v && z == w,
            _ => false,
        },
    }
}

/// Whether two nodes have one operator and the same operands.
#[inline]
pub fn is_same(a: &Node, b: &Node) -> bool
    ensures { IsTrue result ↔ (a.now ≡ b.now) }
{
    same_operands(a.args, b.args) && same_operator(a.op, b.op)
}
