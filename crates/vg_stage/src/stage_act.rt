//! What acts do, and in which stages.
ghost use Rattle.std.specs.Prelude.{◌≡◌, ◌-◌, ◌^◌, ◌<◌};
ghost use Rattle.std.specs.List.{list_any};
ghost use Rattle.vg_stage.specs.StageMet.{does, key_of, line_acts, lines_have, stage_behind};
ghost use Rattle.vg_stage.specs.StageOrder.{act_start};

use crate::act_kind::ActKind;
use vg_ast::{Act, MicroItem};

/// What an act does, and on which resource.
pub(crate) fn key(act: &Act) -> (ActKind, &[char])
    ensures { (result.0, result.1.now) ≡ key_of act.now }
{
    match act {
        Act::Read { resource, .. } => (ActKind::Read, resource.text.as_slice()),
        Act::Write { resource, .. } => (ActKind::Write, resource.text.as_slice()),
        Act::Compute { .. } => (ActKind::Compute, &[]),
        Act::Resolve { .. } => (ActKind::Resolve, &[]),
    }
}

/// The place of the first token of an act.
pub(crate) fn start(act: &Act) -> usize
    ensures { result ≡ act_start act.now }
{
    match act {
        Act::Read { at, .. } | Act::Write { at, .. } | Act::Compute { at } | Act::Resolve { at } =>
            *at,
    }
}

fn does_so(act: &Act, kind: ActKind) -> bool
    ensures { result ≡ does kind act.now }
{
    match act {
        Act::Read { .. } => kind == ActKind::Read,
        Act::Write { .. } => kind == ActKind::Write,
        Act::Compute { .. } => kind == ActKind::Compute,
        Act::Resolve { .. } => kind == ActKind::Resolve,
    }
}

/// Whether one of these acts does this.
pub(crate) fn have(acts: &[Act], kind: ActKind) -> bool
    ensures { result ≡ list_any (does kind) acts.now }
{
    acts.iter().any(|act| does_so(act, kind))
}

/// What a line does, where it is a stage.
pub(crate) fn acts_of(line: &MicroItem) -> &[Act]
    ensures { result.now ≡ line_acts line.now }
{
    match line {
        MicroItem::Stage { acts, .. } => acts.as_slice(),
        MicroItem::Forward { .. } => &[],
    }
}

/// The number of the stage behind a line.
pub(crate) fn behind(stage: usize, line: &MicroItem) -> usize
    requires { stage < 2 ^ 64 - 1 }
    ensures { result ≡ stage_behind stage line.now }
{
    match line {
        MicroItem::Stage { .. } => stage + 1,
        MicroItem::Forward { .. } => stage,
    }
}

/// Whether a stage does this.
pub(crate) fn lines_do(lines: &[MicroItem], kind: ActKind) -> bool
    ensures { result ≡ lines_have (does kind) lines.now }
{
    lines.iter().any(|line| have(acts_of(line), kind))
}
