//! The width of a tree.
ghost use Rattle.std.specs.Prelude.{◌≡◌, ◌+◌, ◌*◌, ◌<◌, ◌≤◌, IsTrue};
ghost use Rattle.vg_isa.specs.Declaration.{is_file, is_single, register_width};
ghost use Rattle.vg_isa.specs.Typing.{binary_fits, binary_width, is_typed, width_of};

use vg_bits::{Bits, Width};
use vg_isa::{BinOp, Expr, Isa, RegId, field};

/// The width of a single register.
#[inline(always)]
#[tactic(auto, using(vg_isa::proofs::Registers::single_within, crate::proofs::Widths::declared_width))]
fn single_width(isa: &Isa, r: RegId) -> Width
    requires { IsTrue (is_single isa.now.regs r.0) }
    ensures { result ≡ register_width isa.now.regs r.0 }
{
    isa.regs()[r.0 as usize].width
}

/// The width of the registers of a file. The index is for the prover alone.
#[inline(always)]
#[tactic(auto, using(vg_isa::proofs::Registers::file_within, crate::proofs::Widths::declared_width))]
fn file_width(isa: &Isa, r: RegId, index: &Expr) -> Width
    requires { IsTrue (is_file isa.now.regs r.0 (width_of isa.now index.now)) }
    ensures { result ≡ register_width isa.now.regs r.0 }
{
    let _ = index;
    isa.regs()[r.0 as usize].width
}

/// The width of an operator's result, by that of its first operand. The second operand is for the prover alone.
#[inline(always)]
fn widened(op: BinOp, a: Width, b: &Expr, isa: &Isa) -> Width
    requires { IsTrue (binary_fits op a (width_of isa.now b.now)) }
    ensures { result ≡ binary_width op a }
{
    let _ = b;
    let _ = isa;
    match op {
        BinOp::MulLong { .. } => Width::of(2 * a.bits()),
        BinOp::Eq | BinOp::Lt | BinOp::Slt => Width::of(1),
        _ => a,
    }
}

/// The width of a tree. The word is any that has the width of the formats.
pub fn tree_width(e: &Expr, isa: &Isa, word: Bits) -> Width
    requires typed { IsTrue (is_typed isa.now e.now) }
    requires word { word.width ≡ isa.now.word }
    ensures { result ≡ width_of isa.now e.now }
{
    match e {
        Expr::Const(b) => b.width(),
        Expr::Field(f) => field(isa, *f, word).width(),
        Expr::Pc => isa.pc().width,
        Expr::Reg(r, None) => single_width(isa, *r),
        Expr::Reg(r, Some(i)) => file_width(isa, *r, i.get()),
        Expr::Mem(_, bytes) => Width::of(8 * *bytes),
        Expr::Unary(_, a) => tree_width(a.get(), isa, word),
        Expr::Binary(op, a, b) => {
            let first = tree_width(a.get(), isa, word);
            widened(*op, first, b.get(), isa)
        }
        Expr::Cast(_, width, _) => *width,
        Expr::Slice(a, high, low) => {
            // for the prover alone: the high bit is one of a value's
            let _from = tree_width(a.get(), isa, word).bits();
            Width::of(*high + 1 - *low)
        }
        Expr::Join(a, b) => {
            let above = tree_width(a.get(), isa, word);
            let below = tree_width(b.get(), isa, word);
            Width::of(above.bits() + below.bits())
        }
        Expr::If(_, a, _) => tree_width(a.get(), isa, word),
    }
}
