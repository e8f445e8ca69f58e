ghost use Rattle.std.specs.Prelude.{ℕ, List};
ghost use Rattle.vg_ir.specs.declared.module.Parts.{Parts};
ghost use Rattle.vg_irplace.specs.declared.target.Target.{Target as TheTarget};
ghost use Rattle.vg_irplace.specs.declared.argument.Argument.{Argument as TheArgument};
ghost use Rattle.vg_irplace.specs.Refused.{OneRefusal};

/// Each module may be placed, or isn't for one thing, and not both.
pub fn one_refusal()
    ensures { (m : Parts) (t : TheTarget) (entry : List ℕ) (arguments : List TheArgument) → OneRefusal m t entry arguments }
{}
