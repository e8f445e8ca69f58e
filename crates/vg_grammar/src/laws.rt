ghost use Rattle.std.specs.Prelude.{◌≡◌, false, true, [], ◌∷◌, codes};
ghost use Rattle.vg_grammar.specs.Lexeme.{lexemes};
ghost use Rattle.vg_grammar.specs.Line.{hex_text, is_negative, joined};

/// Lines, texts of parts, and what they are split into, as the definitions compute them.
#[tactic(auto, unfolding(vg_text::specs::Number::hexadecimal, vg_text::specs::Number::hex_digit))]
pub fn worked_lines()
    ensures lexemes { lexemes (codes "add  x1 , -1\t(.+4)") ≡ codes "add" ∷ codes "x1" ∷ codes "," ∷ codes "-1" ∷ codes "(" ∷ codes ".+4" ∷ codes ")" ∷ [] }
    ensures joined { joined (codes "add" ∷ codes "x1" ∷ codes "," ∷ codes "-1" ∷ codes "+" ∷ []) ≡ codes "add x1,-1 +" }
    ensures hexadecimal { hex_text 0x1f0 ≡ codes "0x1f0" }
    ensures zero { hex_text 0 ≡ codes "0x0" }
    ensures least { is_negative 12 2048 ≡ true }
    ensures greatest { is_negative 12 2047 ≡ false }
    ensures one_bit { is_negative 1 1 ≡ true }
{}
