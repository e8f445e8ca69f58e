ghost use Rattle.std.specs.Prelude.{◌≡◌, ◌⊎◌, ℕ, List};
ghost use Rattle.vg_tok.specs.declared.token.Token.{Token};
ghost use Rattle.vg_ast.specs.declared.desc.Desc.{Desc};
ghost use Rattle.vg_ast.specs.Description.{Reads};
ghost use Rattle.vg_ast.specs.Leaving.{LeavesAt};

/// Tokens have one tree, or else one place where they leave the grammar.
pub fn one_tree()
    ensures tree { (t : List Token) (d e : Desc) → Reads t d → Reads t e → d ≡ e }
    ensures place { (t : List Token) (a b : ℕ) → LeavesAt t a → LeavesAt t b → a ≡ b }
    ensures some { (t : List Token) → ((d : Desc) × Reads t d) ⊎ ((at : ℕ) × LeavesAt t at) }
    ensures either { (t : List Token) (d : Desc) (at : ℕ) → Reads t d → LeavesAt t at → ⊥ }
{}
