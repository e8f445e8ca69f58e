ghost use Rattle.std.specs.Prelude.{◌≡◌, ◌⊎◌, ℕ, List};
ghost use Rattle.vg_tok.specs.declared.token.Token.{Token};
ghost use Rattle.vg_tok.specs.declared.fault.TokFault.{TokFault};
ghost use Rattle.vg_tok.specs.Lexing.{Lexes, IsFault};

/// A text has one list of tokens, or else one first fault.
pub fn one_reading()
    ensures tokens { (bytes : List ℕ) (ts us : List Token) → Lexes bytes ts → Lexes bytes us → ts ≡ us }
    ensures fault { (bytes : List ℕ) (f g : TokFault) → IsFault bytes f → IsFault bytes g → f ≡ g }
    ensures some { (bytes : List ℕ) → ((ts : List Token) × Lexes bytes ts) ⊎ ((f : TokFault) × IsFault bytes f) }
    ensures either { (bytes : List ℕ) (ts : List Token) (f : TokFault) → Lexes bytes ts → IsFault bytes f → ⊥ }
{}
