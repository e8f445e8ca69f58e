//! Lines of instructions, appended to a text.
ghost use Rattle.std.specs.Prelude.{◌≡◌, ◌++◌, ◌≤◌, IfOk, IsTrue, MatchOption, OnOk, drop, false, length, map, true};
ghost use Rattle.std.specs.List.{list_all};
ghost use Rattle.std.specs.Option.{option_map};
ghost use Rattle.vg_isa.specs.Accepted.{is_instr, is_part};
ghost use Rattle.vg_decode.specs.Decoding.{IsDecoderOf};
ghost use Rattle.vg_grammar.specs.Line.{gap, joined, part_text};
ghost use Rattle.vg_asm.specs.Shown.{shown, shown_as, values_in};

use crate::part::push_part;
use crate::touching::do_touch;
use std::alloc::{AllocError, Global};
use vg_bits::Bits;
use vg_decode::Decoder;
use vg_isa::{Instr, Isa, Part};
use vg_text::piece::push_bytes;

/// Appends the text of a part to a line that begins at `start`, behind a space where two words would touch.
fn push_behind(
    out: &mut Vec<u8>,
    start: usize,
    isa: &Isa,
    instr: &Instr,
    part: &Part,
    word: Bits,
) -> Result<(), AllocError>
    requires start { start ≤ length out.old.items }
    requires part { IsTrue (is_part isa.now instr.now.format part.now) }
    requires word { word.width ≡ isa.now.word }
    ensures { let text = part_text isa.now instr.now (values_in isa.now instr.now word.number) part.now in
        OnOk result (out.new.items ≡ out.old.items ++ (gap (drop start out.old.items) text ++ text)) }
{
    let end = out.len();
    push_part(out, isa, instr, part, word)?;
    let (front, back) = out.as_slice().split_at(end);
    if do_touch(&front[start..], back) {
        out.insert(end, b' ')?;
    }
    Ok(())
}

/// Appends the line of an instruction with these parts, with the values of a word.
fn push_parts(
    out: &mut Vec<u8>,
    isa: &Isa,
    instr: &Instr,
    parts: &[Part],
    word: Bits,
) -> Result<(), AllocError>
    requires parts { IsTrue (list_all (is_part isa.now instr.now.format) parts.now) }
    requires word { word.width ≡ isa.now.word }
    ensures { OnOk result (out.new.items ≡ out.old.items
        ++ joined (map (part_text isa.now instr.now (values_in isa.now instr.now word.number)) parts.now)) }
{
    let start = out.len();
    for part in parts {
        push_behind(out, start, isa, instr, part, word)?;
    }
    Ok(())
}

/// Appends what a word of an instruction is shown as: its line, or `-` where it has no template.
fn push_shown(out: &mut Vec<u8>, isa: &Isa, instr: &Instr, word: Bits) -> Result<(), AllocError>
    requires instr { IsTrue (is_instr isa.now instr.now) }
    requires word { word.width ≡ isa.now.word }
    ensures { OnOk result (out.new.items ≡ out.old.items ++ shown_as isa.now word.number instr.now) }
{
    match &instr.template {
        Some(parts) => push_parts(out, isa, instr, parts.as_slice(), word),
        None => push_bytes(out, b"-"),
    }
}

/// Appends the line of a word, or `-` where its instruction has no template, and tells whether the word matches an
/// instruction. Where it doesn't, nothing is appended.
///
/// It takes memory where the text has no room for the line, and for nothing else.
pub fn push_line(
    out: &mut Vec<u8>,
    isa: &Isa,
    decoder: &Decoder,
    word: Bits,
) -> Result<bool, AllocError>
    requires decoder { IsDecoderOf isa.now decoder.now }
    requires word { word.width ≡ isa.now.word }
    ensures { IfOk result (λ is_instr. MatchOption (shown isa.now word.number)
        ((is_instr ≡ false) × (out.new.items ≡ out.old.items))
        (λ line. (is_instr ≡ true) × (out.new.items ≡ out.old.items ++ line))) }
{
    // for the prover alone: the description keeps its rules
    let _ = isa.parts();
    match decoder.find(word) {
        None => Ok(false),
        Some(i) => {
            push_shown(out, isa, isa.instr(i), word)?;
            Ok(true)
        }
    }
}

/// The line of a word, or `-` where its instruction has no template; None exactly where it matches no instruction.
pub fn line_of(
    alloc: Global,
    isa: &Isa,
    decoder: &Decoder,
    word: Bits,
) -> Result<Option<Vec<u8>>, AllocError>
    requires decoder { IsDecoderOf isa.now decoder.now }
    requires word { word.width ≡ isa.now.word }
    ensures { IfOk result (λ line. option_map (λ text. text.items) line ≡ shown isa.now word.number) }
{
    let mut line = Vec::new(alloc);
    if push_line(&mut line, isa, decoder, word)? {
        Ok(Some(line))
    } else {
        Ok(None)
    }
}
