//! The text of a part of a line, appended to a text.
ghost use Rattle.std.specs.Prelude.{◌≡◌, ◌++◌, ◌<◌, ◌≤◌, IsTrue, OnOk, map};
ghost use Rattle.vg_isa.specs.Accepted.{is_field_of, is_part, is_register_file};
ghost use Rattle.vg_grammar.specs.Line.{lower, part_text, register_text, value_of, width_of};
ghost use Rattle.vg_asm.specs.Shown.{values_in};

use crate::number::{push_decimal, push_hex, push_signed, push_target};
use std::alloc::AllocError;
use vg_bits::Bits;
use vg_format::field;
use vg_isa::{FieldId, Instr, Isa, Part, RegId};
use vg_text::piece::push_bytes;

/// A letter of ASCII in lower case.
#[inline(always)]
fn lower(byte: u8) -> u8
    ensures { result ≡ lower byte }
{
    match byte {
        b'A'..=b'Z' => byte + 32,
        _ => byte,
    }
}

/// Appends a name with its letters of ASCII in lower case.
fn push_lower(out: &mut Vec<u8>, name: &[u8]) -> Result<(), AllocError>
    ensures { OnOk result (out.new.items ≡ out.old.items ++ map lower name.now) }
{
    for byte in name {
        out.push(lower(*byte))?;
    }
    Ok(())
}

/// Appends the name of a register file, and an index.
fn push_register(out: &mut Vec<u8>, isa: &Isa, r: RegId, index: Bits) -> Result<(), AllocError>
    requires { IsTrue (is_register_file isa.now r.0) }
    ensures { OnOk result (out.new.items ≡ out.old.items ++ register_text isa.now r.0 index.number) }
{
    match isa.regs().get(r.0 as usize) {
        None => unreachable!(),
        Some(file) => {
            push_lower(out, file.name.as_slice())?;
            push_decimal(out, index.value())
        }
    }
}

/// The value of a field of an instruction's format in a word.
#[inline(always)]
fn value_in(isa: &Isa, instr: &Instr, f: FieldId, word: Bits) -> Bits
    requires field { IsTrue (is_field_of isa.now instr.now.format f) }
    requires word { word.width ≡ isa.now.word }
    ensures few { result.width ≤ 64 }
    ensures width { result.width ≡ width_of isa.now f }
    ensures value { result.number ≡ value_of (values_in isa.now instr.now word.number) f }
{
    // for the prover alone: the description keeps its rules
    let _ = isa.parts();
    field(isa, f, word)
}

/// Appends the text of a part of an instruction's line, with the values of a word.
pub(crate) fn push_part(
    out: &mut Vec<u8>,
    isa: &Isa,
    instr: &Instr,
    part: &Part,
    word: Bits,
) -> Result<(), AllocError>
    requires part { IsTrue (is_part isa.now instr.now.format part.now) }
    requires word { word.width ≡ isa.now.word }
    ensures { OnOk result (out.new.items
        ≡ out.old.items ++ part_text isa.now instr.now (values_in isa.now instr.now word.number) part.now) }
{
    match part {
        Part::Lit(text) => push_bytes(out, text.as_slice()),
        Part::Mnemonic => push_lower(out, instr.name.as_slice()),
        Part::Register(r, f) => push_register(out, isa, *r, value_in(isa, instr, *f, word)),
        Part::Decimal(f) => push_decimal(out, value_in(isa, instr, *f, word).value()),
        Part::Signed(f) => push_signed(out, value_in(isa, instr, *f, word)),
        Part::Hex(f) => push_hex(out, value_in(isa, instr, *f, word).value() as u64),
        Part::Target(f, power) => push_target(out, value_in(isa, instr, *f, word), *power as u8),
    }
}
