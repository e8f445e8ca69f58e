ghost use Rattle.std.specs.Prelude.{◌≡◌, ℕ, List};
ghost use Rattle.vg_irlex.specs.declared.lexeme.Lexeme.{Lexeme};
ghost use Rattle.vg_irlex.specs.Lexing.{Lexes};

/// A text has exactly one list of lexemes.
pub fn one_list()
    ensures some { (text : List ℕ) → (ls : List Lexeme) × Lexes text ls }
    ensures one { (text : List ℕ) (ls ks : List Lexeme) → Lexes text ls → Lexes text ks → ls ≡ ks }
{}
