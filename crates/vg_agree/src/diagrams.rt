ghost use Rattle.vg_agree.specs.Diagram.{Diagram, Commutes};
ghost use Rattle.vg_agree.specs.Agreement.{Agreement};

/// Simulation diagrams, each under what it is of: a program, a machine's code, and what both depend on.
pub trait Diagrams {
    /// What a diagram is of.
    ghost Index: { Type 0 };

    /// The diagram of an index.
    ghost diagram: { Index → Diagram };
}

/// Where a diagram commutes, the machine's run agrees with the program's, whatever the bound.
pub fn agreement<D: Diagrams>()
    ensures { (i : D.Index) → Commutes (D.diagram i) → Agreement (D.diagram i) }
{}
