ghost use Rattle.std.specs.Prelude.{◌≡◌, [], ◌∷◌};
ghost use Rattle.vg_ir.specs.Run.{ir_run};
ghost use Rattle.vg_irrows.specs.Words.{named, report, Gives, Full};
ghost use Rattle.vg_irrows.specs.Recursion.{sum_to, four_frames};

/// A recursion with as many frames as have room on the stack, and with one more. A value is live across the call.
pub fn recursions()
    ensures fits { report (ir_run sum_to four_frames (named "f") (3 ∷ []) 21) ≡ Gives 6 }
    ensures full { report (ir_run sum_to four_frames (named "f") (4 ∷ []) 16) ≡ Full }
{}
