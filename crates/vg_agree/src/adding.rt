ghost use Rattle.std.specs.Prelude.{ℕ, List, [], ◌∷◌};
ghost use Rattle.vg_agree.specs.Diagram.{Commutes};
ghost use Rattle.vg_agree.specs.Agreement.{Agreement};
ghost use Rattle.vg_agree.specs.Adding.{adding};

use crate::diagrams::{Diagrams, agreement};

/// A program that adds up numbers, and a machine that fetches a number before it adds it.
pub struct Adding;

impl Diagrams for Adding {
    ghost Index = { List ℕ };

    ghost diagram = { adding 255 1 2 };
}

/// The machine that adds agrees with the program: it starts in one move, and adds a number in two.
pub fn adding_agrees()
    ensures { (xs : List ℕ) → Agreement (⟦<Adding as Diagrams>⟧.diagram xs) }
{
    agreement::<Adding>();
}

/// Where the machine fills its stack too early or too late, or makes more moves a step than is claimed, the law's
/// conclusion is false, and where its start takes a move that isn't claimed, the premise is. So neither says too
/// little.
pub fn others_disagree()
    ensures early { Agreement (adding 254 1 2 (200 ∷ 55 ∷ [])) → ⊥ }
    ensures late { Agreement (adding 256 1 2 (200 ∷ 56 ∷ [])) → ⊥ }
    ensures step { Agreement (adding 255 1 1 (1 ∷ 1 ∷ 1 ∷ 1 ∷ [])) → ⊥ }
    ensures start { Commutes (adding 255 0 2 []) → ⊥ }
{}
