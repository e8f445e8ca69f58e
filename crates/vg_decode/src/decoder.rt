ghost use Rattle.std.specs.Prelude.{◌≡◌, ◌<◌, ◌≤◌, ◌^◌, MatchResult};
ghost use Rattle.std.specs.Option.{option_map};
ghost use Rattle.vg_isa.specs.declared.isa.Parts.{Parts};
ghost use Rattle.vg_format.specs.Matching.{Decodes, IsUnambiguous};
ghost use Rattle.vg_decode.specs.Decoding.{IsDecoderOf, finds};
ghost use Rattle.vg_decode.specs.Overlap.{IsFaultOf};

use crate::build_fault::BuildFault;
use crate::candidate::candidates;
use crate::growing::grow;
use crate::pairs::first_pair;
use crate::tree::{Tree, find_in};
use std::alloc::Global;
use vg_bits::Bits;
use vg_isa::{InstrId, Isa};

/// What tells of which instruction of a description a word is.
#[derive(Drop)]
pub struct Decoder {
    tree: Tree,
}

/// The decoder of a description.
///
/// `Overlap` comes exactly where a word matches two instructions.
pub fn build(alloc: Global, isa: &Isa) -> Result<Decoder, BuildFault>
    ensures { MatchResult result (λ decoder. IsUnambiguous isa.now × IsDecoderOf isa.now decoder) (IsFaultOf isa.now) }
{
    // for the prover alone: the description keeps its rules
    let _ = isa.parts();
    let candidates = candidates(alloc, isa)?;
    match first_pair(candidates.as_slice()) {
        Some(pair) => Err(BuildFault::Overlap {
            a: pair.a,
            b: pair.b,
            word: Bits::of(isa.word(), u128::from(pair.word)),
        }),
        None => Ok(Decoder {
            tree: grow(alloc, candidates.as_slice(), 64)?,
        }),
    }
}

impl Decoder {
    /// The instruction that a word matches; None where it matches none.
    #[inline(always)]
    pub fn find(&self, word: Bits) -> Option<InstrId>
        requires { word.width ≤ 64 }
        ensures finds { option_map (λ i. i.0) result ≡ finds self.now word.number }
        ensures decodes { (d : Parts) → IsUnambiguous d → IsDecoderOf d self.now → word.number < 2 ^ d.word → Decodes d word.number (option_map (λ i. i.0) result) }
    {
        find_in(&self.tree, word.value() as u64)
    }
}
