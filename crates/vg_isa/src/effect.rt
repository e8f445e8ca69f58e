ghost use Rattle.std.specs.Prelude.{◌≡◌, ◌<◌, IsTrue, length, slice_get, IfSome};
ghost use Rattle.vg_isa.specs.Accepted.{is_instr};
ghost use Rattle.vg_isa.specs.Typing.{is_made, is_typed, is_write, is_write_of, width_of};
ghost use Rattle.vg_isa.specs.Value.{HasDeclaredWidths, value_of};
ghost use Rattle.vg_isa.specs.Effect.{made_by, made_of, next_pc_of, following};
ghost use Rattle.std.specs.Option.{option_map, ForSome};

use crate::evaluation::eval;
use crate::ids::InstrId;
use crate::instr::{Instr, Write};
use crate::isa::Isa;
use crate::view::View;
use crate::write_made::Made;
use vg_bits::Bits;

/// The address or index of a write.
fn place<V: View>(isa: &Isa, write: &Write, word: Bits, v: &V) -> Option<Bits>
    requires write { IsTrue (is_write_of isa.now write.now.resource write.now.at write.now.value) }
    requires word { word.width ≡ isa.now.word }
    requires registers { V.registers v.now ≡ isa.now.regs }
    requires widths { HasDeclaredWidths isa.now (V.reads v.now) }
    ensures value { result ≡ option_map (λ at. value_of isa.now at word.number (V.reads v.now)) write.now.at }
    ensures width { option_map (λ at. at.width) result ≡ option_map (λ at. width_of isa.now at) write.now.at }
{
    match &write.at {
        None => None,
        Some(at) => Some(eval(isa, at, word, v)),
    }
}

/// What a write of an instruction of this description makes; None exactly where its guard is false.
#[inline(always)]
#[tactic(auto, using(crate::proofs::Writes::widths_fit))]
pub fn make<V: View>(isa: &Isa, write: &Write, word: Bits, v: &V) -> Option<Made>
    requires write { IsTrue (is_write isa.now write.now) }
    requires word { word.width ≡ isa.now.word }
    requires registers { V.registers v.now ≡ isa.now.regs }
    requires widths { HasDeclaredWidths isa.now (V.reads v.now) }
    ensures made { result ≡ made_by isa.now write.now word.number (V.reads v.now) }
    ensures widths { IfSome result (λ made. IsTrue (is_made isa.now made)) }
{
    if eval(isa, &write.guard, word, v).value() != 1 {
        return None;
    }
    let at = place(isa, write, word, v);
    let value = eval(isa, &write.value, word, v);
    Some(Made {
        resource: write.resource,
        at,
        value,
    })
}

/// The `k`-th write of an instruction, counted from 0; None exactly where its guard is false, or the
/// instruction has no such write.
pub fn made<V: View>(isa: &Isa, i: InstrId, k: usize, word: Bits, v: &V) -> Option<Made>
    requires instr { i.0 < length isa.now.instrs }
    requires word { word.width ≡ isa.now.word }
    requires registers { V.registers v.now ≡ isa.now.regs }
    requires widths { HasDeclaredWidths isa.now (V.reads v.now) }
    ensures { IfSome (slice_get isa.now.instrs i.0) (λ instr. result ≡ made_of isa.now instr k word.number (V.reads v.now)) }
{
    let write = isa.instr(i).writes.get(k)?;
    make(isa, write, word, v)
}

/// The address of the word behind the instruction's own, modulo the size of the address space.
#[tactic(auto, using(crate::proofs::Kept::step_fits))]
fn next_address<V: View>(isa: &Isa, v: &V) -> Bits
    requires widths { HasDeclaredWidths isa.now (V.reads v.now) }
    ensures { result ≡ following isa.now (V.reads v.now) }
{
    let parts = isa.parts();
    let bytes = u128::from(parts.word.bits() / 8);
    v.pc().add(Bits::of(parts.pc.width, bytes))
}

/// The program counter after an instruction of this description.
#[inline(always)]
#[tactic(auto, unfolding(crate::specs::Accepted::is_instr))]
pub fn next_of<V: View>(isa: &Isa, instr: &Instr, word: Bits, v: &V) -> Bits
    requires instr { IsTrue (is_instr isa.now instr.now) }
    requires word { word.width ≡ isa.now.word }
    requires registers { V.registers v.now ≡ isa.now.regs }
    requires widths { HasDeclaredWidths isa.now (V.reads v.now) }
    ensures next { result ≡ next_pc_of isa.now instr.now word.number (V.reads v.now) }
    ensures width { result.width ≡ isa.now.pc.width }
{
    match &instr.next {
        None => next_address(isa, v),
        Some((guard, target)) => {
            if eval(isa, guard, word, v).value() == 1 {
                eval(isa, target, word, v)
            } else {
                next_address(isa, v)
            }
        }
    }
}

/// The program counter after the instruction with this number.
pub fn next_pc<V: View>(isa: &Isa, i: InstrId, word: Bits, v: &V) -> Bits
    requires instr { i.0 < length isa.now.instrs }
    requires word { word.width ≡ isa.now.word }
    requires registers { V.registers v.now ≡ isa.now.regs }
    requires widths { HasDeclaredWidths isa.now (V.reads v.now) }
    ensures { IfSome (slice_get isa.now.instrs i.0) (λ instr. result ≡ next_pc_of isa.now instr word.number (V.reads v.now)) }
{
    next_of(isa, isa.instr(i), word, v)
}
