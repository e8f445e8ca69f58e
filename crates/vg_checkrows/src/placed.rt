ghost use Rattle.std.specs.Prelude.{◌≡◌, ◌+◌};
ghost use Rattle.vg_irrows.specs.Words.{named};
ghost use Rattle.vg_irplace.specs.Frames.{frame_size, offset_of};
ghost use Rattle.vg_irplace.specs.Addresses.{address_of};
ghost use Rattle.vg_irplace.specs.Costs.{entry_cost, start_cost, greatest_cost, static_cost};
ghost use Rattle.vg_checkrows.specs.Placed.{usual_target, seven, seven_module, objects, placed};

/// Addresses of globals, each at a multiple of its size behind an odd start; frames, and the allocas in them.
pub fn places()
    ensures first { address_of placed usual_target (named "g") ≡ 8388609 }
    ensures second { address_of placed usual_target (named "h") ≡ 8388612 }
    ensures third { address_of placed usual_target (named "p") ≡ 8388616 }
    ensures small_frame { frame_size placed usual_target seven ≡ 64 }
    ensures frame { frame_size placed usual_target objects ≡ 96 }
    ensures first_alloca { offset_of placed usual_target objects (named "a") ≡ 0 }
    ensures aligned_alloca { offset_of placed usual_target objects (named "b") ≡ 8 }
    ensures last_alloca { offset_of placed usual_target objects (named "c") ≡ 10 }
{}

/// A function that gives a number takes up 470 words, and 798 with the start; its `ret` is what costs most.
pub fn costs()
    ensures entry { entry_cost usual_target 0 ≡ 242 }
    ensures start { start_cost usual_target 0 ≡ 328 }
    ensures greatest { greatest_cost seven_module usual_target ≡ 228 }
    ensures code { static_cost seven_module usual_target ≡ 470 }
{}
