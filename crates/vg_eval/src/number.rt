//! The numbers of trees.
ghost use Rattle.std.specs.Prelude.{◌≡◌, ◌+◌, ◌-◌, ◌<◌, ◌≤◌, ◌^◌, IsTrue};
ghost use Rattle.vg_bits.specs.BitValue.{bit_value};
ghost use Rattle.vg_isa.specs.Declaration.{is_file, is_single, register_width};
ghost use Rattle.vg_isa.specs.Typing.{binary_fits, binary_width, has_width, is_typed, width_of};
ghost use Rattle.vg_isa.specs.Value.{HasDeclaredWidths, holds, value_of};

use crate::operators::{binary, cast, unary};
use crate::tree_width::tree_width;
use vg_bits::{Bits, Width};
use vg_isa::{BinOp, Expr, Isa, RegId, View, field};

/// A register of a file.
#[inline(always)]
#[tactic(auto, using(vg_isa::proofs::Registers::file_within))]
fn register<V: View>(isa: &Isa, r: RegId, index: Bits, v: &V) -> Bits
    requires file { IsTrue (is_file isa.now.regs r.0 index.width) }
    requires registers { V.registers v.now ≡ isa.now.regs }
    requires widths { HasDeclaredWidths isa.now (V.reads v.now) }
    ensures value { result ≡ (V.reads v.now).reg r.0 index.number }
    ensures width { result.width ≡ register_width isa.now.regs r.0 }
{
    let _ = isa.parts();
    v.reg(r, index.value() as u8)
}

/// A single register.
#[inline(always)]
#[tactic(auto, using(vg_isa::proofs::Registers::single_within))]
fn single<V: View>(isa: &Isa, r: RegId, v: &V) -> Bits
    requires single { IsTrue (is_single isa.now.regs r.0) }
    requires registers { V.registers v.now ≡ isa.now.regs }
    requires widths { HasDeclaredWidths isa.now (V.reads v.now) }
    ensures value { result ≡ (V.reads v.now).reg r.0 0 }
    ensures width { result.width ≡ register_width isa.now.regs r.0 }
{
    v.reg(r, 0)
}

/// The width of an operator's first operand, by that of its result.
#[inline(always)]
fn first_width(op: BinOp, a: &Expr, isa: &Isa, width: Width, word: Bits) -> Width
    requires typed { IsTrue (is_typed isa.now a.now) }
    requires word { word.width ≡ isa.now.word }
    requires width { width ≡ binary_width op (width_of isa.now a.now) }
    ensures { result ≡ width_of isa.now a.now }
{
    match op {
        BinOp::MulLong { .. } => Width::of(width.bits() / 2),
        BinOp::Eq | BinOp::Lt | BinOp::Slt => tree_width(a, isa, word),
        _ => width,
    }
}

/// The width of an operator's second operand, by that of its first.
#[inline(always)]
fn second_width(op: BinOp, b: &Expr, isa: &Isa, first: Width, word: Bits) -> Width
    requires typed { IsTrue (is_typed isa.now b.now) }
    requires word { word.width ≡ isa.now.word }
    requires fits { IsTrue (binary_fits op first (width_of isa.now b.now)) }
    ensures { result ≡ width_of isa.now b.now }
{
    match op {
        BinOp::Shl | BinOp::Shr | BinOp::Sar => tree_width(b, isa, word),
        _ => first,
    }
}

/// The number of a tree of this width.
pub fn number<V: View>(e: &Expr, isa: &Isa, width: Width, word: Bits, v: &V) -> u128
    requires typed { IsTrue (is_typed isa.now e.now) }
    requires width { width ≡ width_of isa.now e.now }
    requires word { word.width ≡ isa.now.word }
    requires registers { V.registers v.now ≡ isa.now.regs }
    requires widths { HasDeclaredWidths isa.now (V.reads v.now) }
    ensures value { bit_value width result ≡ value_of isa.now e.now word.number (V.reads v.now) }
    ensures fits { result < 2 ^ width }
{
    match e {
        Expr::Const(b) => b.value(),
        Expr::Field(f) => field(isa, *f, word).value(),
        Expr::Pc => v.pc().value(),
        Expr::Reg(r, None) => single(isa, *r, v).value(),
        Expr::Reg(r, Some(i)) => match i.get() {
            Expr::Field(f) => register(isa, *r, field(isa, *f, word), v).value(),
            index => {
                let index_width = tree_width(index, isa, word);
                let at = number(index, isa, index_width, word, v);
                register(isa, *r, Bits::of(index_width, at), v).value()
            }
        },
        Expr::Mem(at, bytes) => {
            let address_width = isa.pc().width;
            let address = number(at.get(), isa, address_width, word, v);
            v.mem(Bits::of(address_width, address), *bytes).value()
        }
        Expr::Unary(op, a) => {
            let operand = number(a.get(), isa, width, word, v);
            unary(*op, Bits::of(width, operand)).value()
        }
        Expr::Binary(op, a, b) => {
            let one = a.get();
            let other = b.get();
            let first = first_width(*op, one, isa, width, word);
            let second = second_width(*op, other, isa, first, word);
            let left = number(one, isa, first, word, v);
            let right = number(other, isa, second, word, v);
            binary(*op, Bits::of(first, left), Bits::of(second, right)).value()
        }
        Expr::Cast(op, _, a) => {
            let from = tree_width(a.get(), isa, word);
            let operand = number(a.get(), isa, from, word, v);
            cast(*op, width, Bits::of(from, operand)).value()
        }
        Expr::Slice(a, high, low) => {
            let from = tree_width(a.get(), isa, word);
            let operand = number(a.get(), isa, from, word, v);
            Bits::of(from, operand).slice(*high, *low).value()
        }
        Expr::Join(a, b) => {
            let first = tree_width(a.get(), isa, word);
            let second = tree_width(b.get(), isa, word);
            let above = number(a.get(), isa, first, word, v);
            let below = number(b.get(), isa, second, word, v);
            Bits::of(first, above).join(Bits::of(second, below)).value()
        }
        Expr::If(c, a, b) => {
            if number(c.get(), isa, Width::of(1), word, v) == 1 {
                number(a.get(), isa, width, word, v)
            } else {
                number(b.get(), isa, width, word, v)
            }
        }
    }
}

/// Whether a condition holds.
#[inline(always)]
pub fn is_met<V: View>(guard: &Expr, isa: &Isa, word: Bits, v: &V) -> bool
    requires typed { IsTrue (has_width isa.now 1 guard.now) }
    requires word { word.width ≡ isa.now.word }
    requires registers { V.registers v.now ≡ isa.now.regs }
    requires widths { HasDeclaredWidths isa.now (V.reads v.now) }
    ensures { result ≡ holds (value_of isa.now guard.now word.number (V.reads v.now)) }
{
    match guard {
        Expr::Const(b) => b.value() == 1,
        _ => number(guard, isa, Width::of(1), word, v) == 1,
    }
}

/// The value of a tree, which may be of any width.
#[inline(always)]
pub fn eval<V: View>(e: &Expr, isa: &Isa, word: Bits, v: &V) -> Bits
    requires typed { IsTrue (is_typed isa.now e.now) }
    requires word { word.width ≡ isa.now.word }
    requires registers { V.registers v.now ≡ isa.now.regs }
    requires widths { HasDeclaredWidths isa.now (V.reads v.now) }
    ensures value { result ≡ value_of isa.now e.now word.number (V.reads v.now) }
    ensures width { result.width ≡ width_of isa.now e.now }
{
    match e {
        Expr::Field(f) => field(isa, *f, word),
        _ => {
            let width = tree_width(e, isa, word);
            Bits::of(width, number(e, isa, width, word, v))
        }
    }
}
