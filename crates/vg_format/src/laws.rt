//! Laws on what a word is.
ghost use Rattle.std.specs.Prelude.{◌≡◌, ℕ, Option};
ghost use Rattle.vg_isa.specs.declared.isa.Parts.{Parts};
ghost use Rattle.vg_format.specs.Matching.{Decodes, MatchesOne, decoded};

/// What a word is, is one thing.
pub fn one_decoding()
    ensures { (d : Parts) (word : ℕ) (x y : Option ℕ) → Decodes d word x → Decodes d word y → x ≡ y }
{}

/// A word that matches no two instructions is the first that it matches.
pub fn first_match()
    ensures { (d : Parts) (word : ℕ) → MatchesOne d word → Decodes d word (decoded d word) }
{}
