//! The operators of trees on bit values.
ghost use Rattle.std.specs.Prelude.{◌≡◌, IsTrue};
ghost use Rattle.vg_isa.specs.Typing.{binary_fits, cast_fits};
ghost use Rattle.vg_isa.specs.Value.{binary_value, cast_value, flag, unary_value};

use vg_bits::{Bits, Width};
use vg_isa::{BinOp, CastOp, UnOp};

/// A Bool as a bit value of width 1.
#[inline(always)]
fn flag_bits(b: bool) -> Bits
    ensures { result ≡ flag b }
{
    if b {
        Bits::of(Width::of(1), 1)
    } else {
        Bits::of(Width::of(1), 0)
    }
}

/// An operator with one operand.
#[inline(always)]
pub fn unary(op: UnOp, a: Bits) -> Bits
    ensures { result ≡ unary_value op a }
{
    match op {
        UnOp::Not => a.not(),
        UnOp::Neg => a.neg(),
    }
}

/// An operator with two operands.
#[inline(always)]
pub fn binary(op: BinOp, a: Bits, b: Bits) -> Bits
    requires { IsTrue (binary_fits op a.width b.width) }
    ensures { result ≡ binary_value op a b }
{
    match op {
        BinOp::Add => a.add(b),
        BinOp::Sub => a.sub(b),
        BinOp::Mul => a.mul(b),
        BinOp::MulLong { signed } => a.mul_long(b, signed),
        BinOp::Udiv => a.udiv(b),
        BinOp::Sdiv => a.sdiv(b),
        BinOp::Urem => a.urem(b),
        BinOp::Srem => a.srem(b),
        BinOp::And => a.and(b),
        BinOp::Or => a.or(b),
        BinOp::Xor => a.xor(b),
        BinOp::Shl => a.shl(b),
        BinOp::Shr => a.shr(b),
        BinOp::Sar => a.sar(b),
        BinOp::Eq => flag_bits(a.eq(b)),
        BinOp::Lt => flag_bits(a.lt(b)),
        BinOp::Slt => flag_bits(a.slt(b)),
    }
}

/// A cast to a width.
#[inline(always)]
pub fn cast(op: CastOp, width: Width, a: Bits) -> Bits
    requires { IsTrue (cast_fits op width a.width) }
    ensures { result ≡ cast_value op width a }
{
    match op {
        CastOp::Extend => a.extend(width),
        CastOp::SignExtend => a.sign_extend(width),
        CastOp::Cut => a.cut(width),
        CastOp::Keep => a,
    }
}
