//! The instructions that a word may match.
ghost use Rattle.std.specs.Prelude.{◌≡◌, ◌≤◌, IfOk, Option};
ghost use Rattle.std.specs.Option.{option_map};
ghost use Rattle.vg_format.specs.Pattern.{fits};
ghost use Rattle.vg_decode.specs.Candidates.{AreOf};
ghost use Rattle.vg_decode.specs.Decoding.{first_fit};

use std::alloc::{AllocError, Global};
use vg_format::{Pattern, pattern_of};
use vg_isa::{InstrId, Isa};

/// An instruction, and the pattern of the words that match it.
#[derive(Clone, Copy, Debug)]
pub(crate) struct Candidate {
    pub instr: InstrId,
    pub pattern: Pattern,
}

/// Whether a word fits a pattern.
#[inline(always)]
fn fits(pattern: &Pattern, word: u64) -> bool
    ensures { result ≡ fits pattern.now word }
{
    word & pattern.mask == pattern.value
}

/// The first candidate whose pattern a word fits.
#[inline(always)]
pub(crate) fn first_fit(candidates: &[Candidate], word: u64) -> Option<InstrId>
    ensures { option_map (λ i. i.0) result ≡ first_fit candidates.now word }
{
    for candidate in candidates {
        if fits(&candidate.pattern, word) {
            return Some(candidate.instr);
        }
    }
    None
}

/// The instructions of a description, in the order of the text.
pub(crate) fn candidates(alloc: Global, isa: &Isa) -> Result<Vec<Candidate>, AllocError>
    ensures { IfOk result (λ v. AreOf isa.now 0 isa.now.instrs v.items) }
{
    // for the prover alone: there are few instructions
    let _ = isa.parts();
    let mut candidates = Vec::new(alloc);
    for (k, instr) in isa.instrs().iter().enumerate() {
        candidates.push(Candidate {
            instr: InstrId(k as u32),
            pattern: pattern_of(isa, instr),
        })?;
    }
    Ok(candidates)
}
