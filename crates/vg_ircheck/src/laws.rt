ghost use Rattle.std.specs.Prelude.{ℕ, Bool, List};
ghost use Rattle.vg_ir.specs.declared.function.Function.{Function};
ghost use Rattle.vg_ir.specs.declared.module.Parts.{Parts};
ghost use Rattle.vg_ircheck.specs.Check.{OneRefusal};
ghost use Rattle.vg_ircheck.specs.Flow.{IsTold};

/// Each module is accepted, or is refused for one thing, and not both.
pub fn one_refusal()
    ensures { (m : Parts) (entry : List ℕ) → OneRefusal m entry }
{}

/// Whether a path of edges leads from the entry block to a block, through some blocks alone, is told by a test.
pub fn paths_told()
    ensures { (f : Function) (among : ℕ → Bool) (b : ℕ) → IsTold f among b }
{}
