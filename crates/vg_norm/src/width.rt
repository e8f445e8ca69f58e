//! The width of a node.
ghost use Rattle.std.specs.Prelude.{◌≡◌, ◌+◌, ◌-◌, ◌<◌, ◌≤◌, length, IsTrue};
ghost use Rattle.vg_isa.specs.Declaration.{is_file, is_single, register_width};
ghost use Rattle.vg_isa.specs.Typing.{binary_fits, binary_width};
ghost use Rattle.vg_graph.specs.Node.{AllBelow, args_of};
ghost use Rattle.vg_norm.specs.Width.{leaf_typing, node_typing, one_typing, two_typing, three_typing};

use vg_bits::{Bits, Width};
use vg_graph::{Node, Op, Operands};
use vg_isa::{BinOp, FieldId, Isa, RegId, field};

/// The width of a register.
fn width_of_register(isa: &Isa, r: RegId) -> Width
    requires { r.0 < length isa.now.regs }
    ensures { result ≡ register_width isa.now.regs r.0 }
{
    isa.regs()[r.0 as usize].width
}

/// The width of a node without operands. A field has the same width in each word.
#[tactic(auto, using(vg_isa::proofs::Registers::single_within))]
fn leaf_width(isa: &Isa, op: Op) -> Width
    requires { IsTrue (leaf_typing isa.now op).is_typed }
    ensures { result ≡ (leaf_typing isa.now op).width }
{
    match op {
        Op::Const(b) => b.width(),
        Op::Field(f) => field(isa, f, Bits::cut_to(isa.word(), 0)).width(),
        Op::Pc => isa.pc().width,
        Op::Reg(r) => width_of_register(isa, r),
        _ => unreachable!(),
    }
}

/// The width of a node over an operand of this width.
#[tactic(auto, using(vg_isa::proofs::Registers::file_within))]
fn one_width(isa: &Isa, op: Op, a: Width) -> Width
    requires { IsTrue (one_typing isa.now op a).is_typed }
    ensures { result ≡ (one_typing isa.now op a).width }
{
    match op {
        Op::Reg(r) => width_of_register(isa, r),
        Op::Mem(bytes) => Width::of(8 * bytes),
        Op::Unary(_) => a,
        Op::Cast(_, width) => width,
        Op::Slice(high, low) => sliced(a, high, low),
        _ => unreachable!(),
    }
}

/// The width of a slice.
pub fn sliced(a: Width, high: u8, low: u8) -> Width
    requires down { low ≤ high }
    requires within { high < a }
    ensures { result ≡ high + 1 - low }
{
    if a.bits() <= high {
        unreachable!();
    }
    Width::of(high + 1 - low)
}

/// The width of a binary operator over operands of these widths.
fn binary(op: BinOp, a: Width, b: Width) -> Width
    requires { IsTrue (binary_fits op a b) }
    ensures { result ≡ binary_width op a }
{
    match op {
        BinOp::MulLong { .. } => Width::of(2 * a.bits()),
        BinOp::Eq | BinOp::Lt | BinOp::Slt => Width::of(1),
        _ => a,
    }
}

/// The width of a node over operands of these widths.
fn two_width(isa: &Isa, op: Op, a: Width, b: Width) -> Width
    requires { IsTrue (two_typing isa.now op a b).is_typed }
    ensures { result ≡ (two_typing isa.now op a b).width }
{
    match op {
        Op::Binary(o) => binary(o, a, b),
        Op::Join => Width::of(a.bits() + b.bits()),
        _ => unreachable!(),
    }
}

/// The width of a node over operands of these widths.
fn three_width(isa: &Isa, op: Op, c: Width, a: Width, b: Width) -> Width
    requires { IsTrue (three_typing isa.now op c a b).is_typed }
    ensures { result ≡ (three_typing isa.now op c a b).width }
{
    match op {
        Op::If => a,
        _ => unreachable!(),
    }
}

/// The width of a node over nodes of these widths.
pub fn node_width(isa: &Isa, widths: &[Width], node: &Node) -> Width
    requires typed { IsTrue (node_typing isa.now widths.now node.now.op node.now.args).is_typed }
    requires within { AllBelow (length widths.now) (args_of node.now) }
    ensures { result ≡ (node_typing isa.now widths.now node.now.op node.now.args).width }
{
    match node.args {
        Operands::Zero => leaf_width(isa, node.op),
        Operands::One(a) => one_width(isa, node.op, widths[a as usize]),
        Operands::Two(a, b) => two_width(isa, node.op, widths[a as usize], widths[b as usize]),
        Operands::Three(c, a, b) => {
            let (c, a, b) = (widths[c as usize], widths[a as usize], widths[b as usize]);
            three_width(isa, node.op, c, a, b)
        }
    }
}
