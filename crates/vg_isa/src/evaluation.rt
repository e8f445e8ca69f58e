ghost use Rattle.std.specs.Prelude.{◌≡◌, ◌+◌, ◌-◌, ◌<◌, ◌≤◌, ◌^◌, IsTrue};
ghost use Rattle.vg_isa.specs.Declaration.{is_file, is_single, register_width};
ghost use Rattle.vg_isa.specs.Typing.{is_typed, width_of, binary_fits, cast_fits};
ghost use Rattle.vg_isa.specs.Value.{value_of, binary_value, unary_value, cast_value, flag, holds, HasDeclaredWidths};

use crate::expr::Expr;
use crate::ids::RegId;
use crate::isa::Isa;
use crate::operator::{BinOp, CastOp, UnOp};
use crate::view::View;
use crate::word_field::field;
use vg_bits::{Bits, Width};

/// A Bool as a bit value of width 1.
#[inline(always)]
fn flag_bits(b: bool) -> Bits
    ensures { result ≡ flag b }
{
    if b {
        Bits::of(Width::of(1), 1)
    } else {
        Bits::of(Width::of(1), 0)
    }
}

#[inline(always)]
fn unary(op: UnOp, a: Bits) -> Bits
    ensures { result ≡ unary_value op a }
{
    match op {
        UnOp::Not => a.not(),
        UnOp::Neg => a.neg(),
    }
}

#[inline(always)]
fn binary(op: BinOp, a: Bits, b: Bits) -> Bits
    requires { IsTrue (binary_fits op a.width b.width) }
    ensures { result ≡ binary_value op a b }
{
    match op {
        BinOp::Add => a.add(b),
        BinOp::Sub => a.sub(b),
        BinOp::Mul => a.mul(b),
        BinOp::MulLong { signed } => a.mul_long(b, signed),
        BinOp::Udiv => a.udiv(b),
        BinOp::Sdiv => a.sdiv(b),
        BinOp::Urem => a.urem(b),
        BinOp::Srem => a.srem(b),
        BinOp::And => a.and(b),
        BinOp::Or => a.or(b),
        BinOp::Xor => a.xor(b),
        BinOp::Shl => a.shl(b),
        BinOp::Shr => a.shr(b),
        BinOp::Sar => a.sar(b),
        BinOp::Eq => flag_bits(a.eq(b)),
        BinOp::Lt => flag_bits(a.lt(b)),
        BinOp::Slt => flag_bits(a.slt(b)),
    }
}

#[inline(always)]
fn cast(op: CastOp, width: Width, a: Bits) -> Bits
    requires { IsTrue (cast_fits op width a.width) }
    ensures { result ≡ cast_value op width a }
{
    match op {
        CastOp::Extend => a.extend(width),
        CastOp::SignExtend => a.sign_extend(width),
        CastOp::Cut => a.cut(width),
        CastOp::Keep => a,
    }
}

/// A register of a file.
#[inline(always)]
#[tactic(auto, using(crate::proofs::Registers::file_within))]
fn register<V: View>(isa: &Isa, r: RegId, index: Bits, v: &V) -> Bits
    requires file { IsTrue (is_file isa.now.regs r.0 index.width) }
    requires registers { V.registers v.now ≡ isa.now.regs }
    requires widths { HasDeclaredWidths isa.now (V.reads v.now) }
    ensures value { result ≡ (V.reads v.now).reg r.0 index.number }
    ensures width { result.width ≡ register_width isa.now.regs r.0 }
{
    let _ = isa.parts();
    v.reg(r, index.value() as u8)
}

/// A single register.
#[inline(always)]
#[tactic(auto, using(crate::proofs::Registers::single_within))]
fn single<V: View>(isa: &Isa, r: RegId, v: &V) -> Bits
    requires single { IsTrue (is_single isa.now.regs r.0) }
    requires registers { V.registers v.now ≡ isa.now.regs }
    requires widths { HasDeclaredWidths isa.now (V.reads v.now) }
    ensures value { result ≡ (V.reads v.now).reg r.0 0 }
    ensures width { result.width ≡ register_width isa.now.regs r.0 }
{
    v.reg(r, 0)
}

/// What [`eval`] gives, by recursion on the tree.
fn value<V: View>(e: &Expr, isa: &Isa, word: Bits, v: &V) -> Bits
    requires typed { IsTrue (is_typed isa.now e.now) }
    requires word { word.width ≡ isa.now.word }
    requires registers { V.registers v.now ≡ isa.now.regs }
    requires widths { HasDeclaredWidths isa.now (V.reads v.now) }
    ensures value { result ≡ value_of isa.now e.now word.number (V.reads v.now) }
    ensures width { result.width ≡ width_of isa.now e.now }
{
    match e {
        Expr::Const(b) => *b,
        Expr::Field(f) => field(isa, *f, word),
        Expr::Pc => v.pc(),
        Expr::Reg(r, None) => single(isa, *r, v),
        Expr::Reg(r, Some(i)) => register(isa, *r, value(i.get(), isa, word, v), v),
        Expr::Mem(at, bytes) => v.mem(value(at.get(), isa, word, v), *bytes),
        Expr::Unary(op, a) => unary(*op, value(a.get(), isa, word, v)),
        Expr::Binary(op, a, b) => {
            let left = value(a.get(), isa, word, v);
            let right = value(b.get(), isa, word, v);
            binary(*op, left, right)
        }
        Expr::Cast(op, width, a) => cast(*op, *width, value(a.get(), isa, word, v)),
        Expr::Slice(a, high, low) => value(a.get(), isa, word, v).slice(*high, *low),
        Expr::Join(a, b) => {
            let above = value(a.get(), isa, word, v);
            let below = value(b.get(), isa, word, v);
            above.join(below)
        }
        Expr::If(c, a, b) => {
            let condition = value(c.get(), isa, word, v);
            if condition.value() == 1 {
                value(a.get(), isa, word, v)
            } else {
                value(b.get(), isa, word, v)
            }
        }
    }
}

/// The value of a tree for an instruction word in a state.
///
/// The tree is typed, the word has the width of the formats, and the view stands for a state of this
/// description.
#[inline(always)]
pub fn eval<V: View>(isa: &Isa, e: &Expr, word: Bits, v: &V) -> Bits
    requires typed { IsTrue (is_typed isa.now e.now) }
    requires word { word.width ≡ isa.now.word }
    requires registers { V.registers v.now ≡ isa.now.regs }
    requires widths { HasDeclaredWidths isa.now (V.reads v.now) }
    ensures value { result ≡ value_of isa.now e.now word.number (V.reads v.now) }
    ensures width { result.width ≡ width_of isa.now e.now }
{
    value(e, isa, word, v)
}
