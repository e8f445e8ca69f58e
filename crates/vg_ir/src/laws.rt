ghost use Rattle.std.specs.Prelude.{◌≡◌, ℕ, ◌+◌, ◌≤◌, ◌↔◌, IsTrue, List};
ghost use Rattle.vg_ir.specs.declared.name.Name.{Name};
ghost use Rattle.vg_ir.specs.declared.module.Parts.{Parts};
ghost use Rattle.vg_ir.specs.Memory.{Object};
ghost use Rattle.vg_ir.specs.Answer.{Cause};
ghost use Rattle.vg_ir.specs.State.{Placement, IrState, live_objects};
ghost use Rattle.vg_ir.specs.Control.{Undefined};
ghost use Rattle.vg_ir.specs.Step.{ir_step};
ghost use Rattle.vg_ir.specs.Run.{ir_run};
ghost use Rattle.vg_ir.specs.Outcomes.{is_over, IfNext};
ghost use Rattle.vg_ir.specs.Keeping.{next_keeps_bytes, next_keeps_objects};
ghost use Rattle.vg_ir.specs.Failing.{StepFails};
ghost use Rattle.vg_ir.specs.Sound.{IsIn, AreApart, IsSound, IsPlaced, open_objects};

/// A run stays at its end, and so comes to at most one.
pub fn one_end()
    ensures stays { (m : Parts) (p : Placement) (entry : Name) (arguments : List ℕ) (j k : ℕ) → j ≤ k → IsTrue (is_over (ir_run m p entry arguments j)) → ir_run m p entry arguments k ≡ ir_run m p entry arguments j }
    ensures one { (m : Parts) (p : Placement) (entry : Name) (arguments : List ℕ) (j k : ℕ) → IsTrue (is_over (ir_run m p entry arguments j)) → IsTrue (is_over (ir_run m p entry arguments k)) → ir_run m p entry arguments j ≡ ir_run m p entry arguments k }
{}

/// What isn't a store, a call, an alloca or a return leaves memory as it is: a step that neither stores nor calls leaves each
/// byte, and one that makes no object, calls nothing and doesn't return leaves the live objects.
pub fn memory_kept()
    ensures bytes { (m : Parts) (p : Placement) (s : IrState) → IsTrue (next_keeps_bytes s.frame.left) → IfNext (ir_step m p s) (λ t. t.set ≡ s.set) }
    ensures objects { (m : Parts) (p : Placement) (s : IrState) → IsTrue (next_keeps_objects s.frame.left s.frame.last) → IfNext (ir_step m p s) (λ t. live_objects m p t ≡ live_objects m p s) }
{}

/// A step is undefined exactly in the ten cases, each for its own cause.
pub fn ten_causes()
    ensures only { (m : Parts) (p : Placement) (s : IrState) (c : Cause) → ir_step m p s ≡ Undefined c → StepFails m p s c }
    ensures each { (m : Parts) (p : Placement) (s : IrState) (c : Cause) → StepFails m p s c → ir_step m p s ≡ Undefined c }
{}

/// Where a module is placed, each state of a run is sound: a value fits the width at which its function sets it, a byte is
/// below 256, and frames stand on one another in the stack with their objects in them. A step from any sound state leads to
/// a sound one.
pub fn sound_states()
    ensures steps { (m : Parts) (p : Placement) → IsPlaced m p → (s : IrState) → IsSound m p s → IfNext (ir_step m p s) (IsSound m p) }
    ensures runs { (m : Parts) (p : Placement) → IsPlaced m p → (entry : Name) (arguments : List ℕ) (k : ℕ) → IfNext (ir_run m p entry arguments k) (IsSound m p) }
{}

/// In a sound state the objects of open frames lie in the stack, and two of them are one or have no byte in common.
pub fn objects_apart()
    ensures apart { (m : Parts) (p : Placement) → IsPlaced m p → (s : IrState) → IsSound m p s → (a b : Object) → IsIn a (open_objects s) → IsIn b (open_objects s) → AreApart a b }
    ensures in_stack { (m : Parts) (p : Placement) → IsPlaced m p → (s : IrState) → IsSound m p s → (o : Object) → IsIn o (open_objects s) → (p.low ≤ o.at) × (o.at + o.size ≤ p.high) }
{}
