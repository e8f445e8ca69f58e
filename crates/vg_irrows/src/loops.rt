ghost use Rattle.std.specs.Prelude.{◌≡◌, [], ◌∷◌};
ghost use Rattle.vg_ir.specs.Run.{ir_run};
ghost use Rattle.vg_irrows.specs.Words.{named, report, Gives, Runs};
ghost use Rattle.vg_irrows.specs.Loops.{exchange, factorial, usual_stack};

/// Phis are all read before any is set: copies that are made one after the other would give 22.
pub fn exchanged()
    ensures goes_on { report (ir_run exchange usual_stack (named "s") [] 15) ≡ Runs }
    ensures ends { report (ir_run exchange usual_stack (named "s") [] 16) ≡ Gives 21 }
{}

/// A factorial, with its values in memory.
pub fn factorials()
    ensures three { report (ir_run factorial usual_stack (named "fact") (3 ∷ []) 32) ≡ Gives 6 }
    ensures ten { report (ir_run factorial usual_stack (named "fact") (10 ∷ []) 109) ≡ Gives 3628800 }
{}
