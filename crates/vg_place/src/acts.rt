ghost use Rattle.std.specs.Prelude.{◌≡◌, ◌≤◌, ◌<◌, length, position};
ghost use Rattle.std.specs.List.{list_any};
ghost use Rattle.vg_isa.specs.declared.abi.Stage.{Stage};
ghost use Rattle.vg_isa.specs.Same.{same_resource};
ghost use Rattle.vg_place.specs.Stage.{act_is, act_stage};

use vg_isa::{Act, Micro, ResourceId, Stage};

/// The two are one resource.
fn same_resource(a: ResourceId, b: ResourceId) -> bool
    ensures { result ≡ same_resource a b }
{
    match (a, b) {
        (ResourceId::Memory, ResourceId::Memory) => true,
        (ResourceId::Reg(a), ResourceId::Reg(b)) => a.0 == b.0,
        _ => false,
    }
}

/// The act is this one.
fn is_act(wanted: Act, act: Act) -> bool
    ensures { result ≡ act_is wanted act }
{
    match (wanted, act) {
        (Act::Read(r), Act::Read(q)) => same_resource(r, q),
        (Act::Write(r), Act::Write(q)) => same_resource(r, q),
        (Act::Compute, Act::Compute) => true,
        (Act::Resolve, Act::Resolve) => true,
        _ => false,
    }
}

/// The act stands in the stage.
fn has_act(stage: &Stage, wanted: Act) -> bool
    ensures { result ≡ list_any (act_is wanted) stage.now.acts }
{
    stage.acts.as_slice().iter().any(|act| is_act(wanted, *act))
}

/// The first stage with this act.
fn first_with(stages: &[Stage], wanted: Act) -> Option<usize>
    ensures { result ≡ position (λ (stage : Stage). list_any (act_is wanted) stage.acts) stages.now }
{
    stages.iter().position(|stage| has_act(stage, wanted))
}

/// The first stage with this act, or another one where there is none.
pub fn act_stage(micro: &Micro, wanted: Act, other: u8) -> u8
    requires { length micro.now.stages ≤ 16 }
    ensures { result ≡ act_stage other (act_is wanted) micro.now }
{
    match first_with(micro.stages.as_slice(), wanted) {
        None => other,
        Some(stage) => stage as u8,
    }
}
