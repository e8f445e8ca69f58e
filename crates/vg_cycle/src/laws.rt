ghost use Rattle.std.specs.Prelude.{◌≡◌, ℕ};
ghost use Rattle.vg_cycle.specs.Description.{View, Description, IsPlaced, IsRun};
ghost use Rattle.vg_cycle.specs.Pipe.{Slot, HoldsAt};
ghost use Rattle.vg_cycle.specs.Laws.{Refines, Advances, GoesByReason, HasParts};
ghost use Rattle.vg_cycle.specs.Sample.{counter, counts, HasCycle, HasMove};

/// A law: a pipeline stands for a run of its description, after every cycle and every step inside of a cycle.
pub fn pipeline_refines()
    ensures { (d : Description) (run : ℕ → View) → IsPlaced d → IsRun d run → Refines d run }
{}

/// A law: every cycle wins a stage of the oldest instruction or gets a no of the memory, so instructions retire in time.
pub fn pipeline_advances()
    ensures { (d : Description) (run : ℕ → View) → IsPlaced d → IsRun d run → Advances d run }
{}

/// A law: an instruction can do its next stage exactly where it waits for no location, and waits exactly as `choose` says.
pub fn pipeline_goes_by_reason()
    ensures { (d : Description) → IsPlaced d → GoesByReason d }
{}

/// A law: a slot that holds an instruction of the run has the run's guards, values, next program counter and asks, as
/// far as they are known.
pub fn slots_have_parts()
    ensures { (d : Description) (u : ℕ) (y : Slot) (s : View) → IsPlaced d → HoldsAt d u y s → HasParts d u y s }
{}

/// The laws at a pipeline of five stages and at one of a single stage: each has a description that is placed, its run,
/// a new pipeline and a cycle of it; with five stages also an instruction in a slot that does a stage.
pub fn laws_have_instances()
    ensures one { HasCycle (counter 1 0 0 0) (counts (counter 1 0 0 0)) }
    ensures five { HasCycle (counter 5 1 2 4) (counts (counter 5 1 2 4)) }
    ensures moves { HasMove (counter 5 1 2 4) (counts (counter 5 1 2 4)) }
{}
