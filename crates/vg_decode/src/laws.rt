//! Laws on overlaps and decoders.
ghost use Rattle.std.specs.Prelude.{◌≡◌, ◌<◌, ◌^◌, ℕ};
ghost use Rattle.vg_isa.specs.declared.isa.Parts.{Parts};
ghost use Rattle.vg_format.specs.Matching.{Decodes, IsUnambiguous};
ghost use Rattle.vg_decode.specs.declared.decoder.Decoder.{Decoder as DecoderValue};
ghost use Rattle.vg_decode.specs.Decoding.{IsDecoderOf, finds};
ghost use Rattle.vg_decode.specs.Overlap.{IsFirstOverlap};

/// One overlap at most is the first of a description.
pub fn one_overlap()
    ensures { (d : Parts) (a b word i k other : ℕ) → IsFirstOverlap d a b word → IsFirstOverlap d i k other → (a ≡ i) × (b ≡ k) × (word ≡ other) }
{}

/// Where there is an overlap, some word matches two instructions.
pub fn overlap_is_ambiguous()
    ensures { (d : Parts) (a b word : ℕ) → IsFirstOverlap d a b word → IsUnambiguous d → ⊥ }
{}

/// What a decoder of an unambiguous description finds, is what the word is.
pub fn decoder_decodes()
    ensures { (d : Parts) (decoder : DecoderValue) (word : ℕ) → IsUnambiguous d → IsDecoderOf d decoder → word < 2 ^ d.word → Decodes d word (finds decoder word) }
{}
