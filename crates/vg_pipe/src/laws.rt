ghost use Rattle.std.specs.Prelude.{ℕ, IsTrue};
ghost use Rattle.vg_isa.specs.declared.isa.Parts.{Parts};
ghost use Rattle.vg_isa.specs.declared.abi.Micro.{Micro};
ghost use Rattle.vg_image.specs.declared.image.Image.{Image};
ghost use Rattle.vg_isa.specs.Accepted.{is_isa};
ghost use Rattle.vg_cycle.specs.Description.{View, IsPlaced, IsRun};
ghost use Rattle.vg_image.specs.State.{IsState, State};
ghost use Rattle.vg_pipe.specs.Run.{run_from};
ghost use Rattle.vg_cycle.specs.Pipe.{Slot, HoldsAt};
ghost use Rattle.vg_cycle.specs.Laws.{Advances, GoesByReason, HasParts, Refines};
ghost use Rattle.vg_pipe.specs.Seen.{seen};
ghost use Rattle.vg_pipe.specs.Laws.{IsPlanned};
ghost use Rattle.vg_pipe.specs.Sample.{HasPipeline, five_stages, one_stage};

/// A law: an accepted description whose parts come in time is placed, as the laws of a pipeline ask for it.
pub fn description_is_placed()
    ensures { (d : Parts) (micro : Micro) (i : Image) → IsPlanned d micro → IsPlaced (seen d micro i) }
{}

/// A law: in a pipeline of such a description an instruction can do its next stage exactly where it waits for no
/// location, and waits exactly as `choose` says.
pub fn description_goes_by_reason()
    ensures { (d : Parts) (micro : Micro) (i : Image) → IsPlanned d micro → GoesByReason (seen d micro i) }
{}

/// A law: what a slot on the path knows of its instruction is what the state before the instruction has.
pub fn description_has_parts()
    ensures { (d : Parts) (micro : Micro) (i : Image) (u : ℕ) (y : Slot)
        (s : View) → IsPlanned d micro → HoldsAt (seen d micro i) u y s → HasParts (seen d micro i) u y s }
{}

/// A law: the run of an image, one instruction at a time, is a run of the description: behind each instruction stand the
/// program counter, the registers and the memory that the description gives it.
pub fn run_is_of_description()
    ensures { (d : Parts) (micro : Micro) (i : Image) (first : State)
        → IsTrue (is_isa d) → IsState d first → IsRun (seen d micro i) (run_from d i first) }
{}

/// A law: a pipeline of such a description stands for the run of the image, from any state on, after every cycle and
/// every step inside of a cycle.
pub fn description_is_refined()
    ensures { (d : Parts) (micro : Micro) (i : Image) (first : State)
        → IsPlanned d micro → IsState d first → Refines (seen d micro i) (run_from d i first) }
{}

/// A law: every cycle of it wins a stage of the oldest instruction or gets a no of the memory, so instructions retire
/// in time.
pub fn description_advances()
    ensures { (d : Parts) (micro : Micro) (i : Image) (first : State)
        → IsPlanned d micro → IsState d first → Advances (seen d micro i) (run_from d i first) }
{}

/// The laws' premises at a processor with a pipeline of five stages, and at one with a pipeline of a single stage.
pub fn laws_have_instances()
    ensures five { HasPipeline five_stages }
    ensures one { HasPipeline one_stage }
{}
