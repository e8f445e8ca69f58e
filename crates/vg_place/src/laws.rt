ghost use Rattle.std.specs.Prelude.{◌≡◌, ◌<◌, ◌↔◌, ℕ, List, IsTrue, Some};
ghost use Rattle.vg_isa.specs.declared.isa.Parts.{Parts};
ghost use Rattle.vg_isa.specs.declared.expr.Expr.{Expr};
ghost use Rattle.vg_isa.specs.Value.{Reads, value_of};
ghost use Rattle.vg_place.specs.declared.stage_table.Stages.{Stages};
ghost use Rattle.vg_isa.specs.Accepted.{is_isa};
ghost use Rattle.vg_place.specs.Stage.{stage_of, stages_in};
ghost use Rattle.vg_place.specs.Unplaced.{IsInOrder, IsInTime};
ghost use Rattle.vg_place.specs.Reading.{AgreeOn};
ghost use Rattle.vg_isa.specs.declared.abi.Micro.{Micro};
ghost use Rattle.vg_place.specs.Terms.{IsGreatest, KeepsOrder};
ghost use Rattle.vg_place.specs.Time.{Place, TimedRow, had};

/// A law: two states that agree on what a tree reads in the first stages give it one value, where its value is there
/// after these stages. So a pipeline may work a tree out of what an instruction has read so far.
pub fn values_agree()
    ensures { (d : Parts) (s : Stages) (word : ℕ) (e : Expr) (u : ℕ) (v w : Reads) → AgreeOn d s word e u v w → stage_of s e < u → value_of d e word v ≡ value_of d e word w }
{}

/// A law: when a location can be had is the greatest of its terms, which are those of the last instruction that writes
/// it and of the later ones that name it in a write that isn't made.
pub fn location_terms()
    ensures { (l : Place) (rows : List (TimedRow Place)) → IsGreatest l rows (had l rows) }
{}

/// A law: in the recurrence of time each stage takes a cycle at least, no two instructions are in one stage in one cycle,
/// and nothing is fetched in a cycle in which a wrong guess is decided, or before.
pub fn cycles_keep_order()
    ensures { (d : Parts) (micro : Micro) (s : Stages) → KeepsOrder d micro s }
{}

/// A law: an accepted description keeps the order of stages, so its stages are in order, with all parts in time, exactly
/// where no part of an instruction comes too late.
pub fn accepted_is_in_order()
    ensures { (d : Parts) (micro : Micro) → IsTrue (is_isa d) → d.micro ≡ Some micro
        → (IsInOrder d micro ↔ IsInTime (stages_in d micro) d.instrs) }
{}
