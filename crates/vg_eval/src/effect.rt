//! The writes that are made, and the program counter after an instruction.
ghost use Rattle.std.specs.Prelude.{◌≡◌, IsTrue, IfSome};
ghost use Rattle.std.specs.Option.{option_map};
ghost use Rattle.vg_isa.specs.Accepted.{is_instr};
ghost use Rattle.vg_isa.specs.Typing.{has_width, is_made, is_write, is_write_of, width_of};
ghost use Rattle.vg_isa.specs.Value.{HasDeclaredWidths, value_of};
ghost use Rattle.vg_isa.specs.Effect.{following, made_by, next_pc_of};

use crate::number::{eval, is_met, number};
use vg_bits::Bits;
use vg_isa::{Expr, Instr, Isa, Made, View, Write};

/// The address or index of a write.
#[inline(always)]
fn place<V: View>(isa: &Isa, write: &Write, word: Bits, v: &V) -> Option<Bits>
    requires write { IsTrue (is_write_of isa.now write.now.resource write.now.at write.now.value) }
    requires word { word.width ≡ isa.now.word }
    requires registers { V.registers v.now ≡ isa.now.regs }
    requires widths { HasDeclaredWidths isa.now (V.reads v.now) }
    ensures value { result ≡ option_map (λ at. value_of isa.now at word.number (V.reads v.now)) write.now.at }
    ensures width { option_map (λ at. at.width) result ≡ option_map (λ at. width_of isa.now at) write.now.at }
{
    match &write.at {
        None => None,
        Some(at) => Some(eval(at, isa, word, v)),
    }
}

/// What a write of an instruction of this description makes; None exactly where its guard is false.
#[inline(always)]
#[tactic(auto, using(vg_isa::proofs::Writes::widths_fit))]
pub fn make<V: View>(isa: &Isa, write: &Write, word: Bits, v: &V) -> Option<Made>
    requires write { IsTrue (is_write isa.now write.now) }
    requires word { word.width ≡ isa.now.word }
    requires registers { V.registers v.now ≡ isa.now.regs }
    requires widths { HasDeclaredWidths isa.now (V.reads v.now) }
    ensures made { result ≡ made_by isa.now write.now word.number (V.reads v.now) }
    ensures widths { IfSome result (λ made. IsTrue (is_made isa.now made)) }
{
    if !is_met(&write.guard, isa, word, v) {
        return None;
    }
    let at = place(isa, write, word, v);
    let value = eval(&write.value, isa, word, v);
    Some(Made {
        resource: write.resource,
        at,
        value,
    })
}

/// The address of the word behind the instruction's own, modulo the size of the address space.
#[inline(always)]
#[tactic(auto, using(vg_isa::proofs::Kept::step_fits))]
fn next_address<V: View>(isa: &Isa, v: &V) -> Bits
    requires widths { HasDeclaredWidths isa.now (V.reads v.now) }
    ensures { result ≡ following isa.now (V.reads v.now) }
{
    let parts = isa.parts();
    let bytes = u128::from(parts.word.bits() / 8);
    v.pc().add(Bits::of(parts.pc.width, bytes))
}

/// What is written to the program counter.
#[inline(always)]
fn target_of<V: View>(target: &Expr, isa: &Isa, word: Bits, v: &V) -> Bits
    requires target { IsTrue (has_width isa.now isa.now.pc.width target.now) }
    requires word { word.width ≡ isa.now.word }
    requires registers { V.registers v.now ≡ isa.now.regs }
    requires widths { HasDeclaredWidths isa.now (V.reads v.now) }
    ensures value { result ≡ value_of isa.now target.now word.number (V.reads v.now) }
    ensures width { result.width ≡ isa.now.pc.width }
{
    let width = isa.pc().width;
    Bits::of(width, number(target, isa, width, word, v))
}

/// The program counter after an instruction of this description.
#[inline(always)]
#[tactic(auto, unfolding(vg_isa::specs::Accepted::is_instr))]
pub fn next_of<V: View>(isa: &Isa, instr: &Instr, word: Bits, v: &V) -> Bits
    requires instr { IsTrue (is_instr isa.now instr.now) }
    requires word { word.width ≡ isa.now.word }
    requires registers { V.registers v.now ≡ isa.now.regs }
    requires widths { HasDeclaredWidths isa.now (V.reads v.now) }
    ensures next { result ≡ next_pc_of isa.now instr.now word.number (V.reads v.now) }
    ensures width { result.width ≡ isa.now.pc.width }
{
    match &instr.next {
        None => next_address(isa, v),
        Some((guard, target)) => {
            if is_met(guard, isa, word, v) {
                target_of(target, isa, word, v)
            } else {
                next_address(isa, v)
            }
        }
    }
}
