//! The rules of the stages of a micro architecture.
ghost use Rattle.std.specs.Prelude.{◌≡◌, ◌||◌, not, Some, IfOk};
ghost use Rattle.std.specs.List.{list_any};
ghost use Rattle.vg_inline.specs.Bodies.{AreBodies};
ghost use Rattle.vg_inline.specs.InPlace.{behaviour_of, known_of};
ghost use Rattle.vg_inline.specs.Rules.{IsFolded};
ghost use Rattle.vg_names.specs.First.{first_of};
ghost use Rattle.vg_type.specs.Item.{setting_of};
ghost use Rattle.vg_type.specs.Setting.{setting_in};
ghost use Rattle.vg_stage.specs.StageLack.{behaviour_lacks as behaviour_lacks_of};
ghost use Rattle.vg_stage.specs.StageOrder.{acts_from, has_act, is_compute, is_lacking, is_resolve, is_wrong_count, stage_breaks, stage_count as stage_count_of};

use crate::act_kind::ActKind;
use crate::stage_act::{behind, lines_do};
use crate::stage_lack::Lacking;
use crate::stage_met::first_wrong;
use crate::stage_uses::behaviour_lacks;
use std::alloc::{AllocError, Global};
use vg_ast::{Micro, MicroItem};
use vg_inline::{Bodies, Plain, behaviour};
use vg_type::Setting;

/// How many stages there are.
fn stage_count(lines: &[MicroItem]) -> usize
    ensures { result ≡ stage_count_of lines.now }
{
    let mut stages = 0;
    for line in lines {
        stages = behind(stages, line);
    }
    stages
}

/// Whether there are too few or too many stages, or one of the acts that stand once is lacking.
#[tactic(auto, using(crate::proofs::StageWhole::computes, crate::proofs::StageWhole::resolves))]
fn is_incomplete(lines: &[MicroItem]) -> bool
    ensures { let all = acts_from 0 lines.now in result ≡ (is_wrong_count (stage_count_of lines.now) || not (has_act all is_compute) || not (has_act all is_resolve)) }
{
    let stages = stage_count(lines);
    stages < 1
        || stages > 16
        || !lines_do(lines, ActKind::Compute)
        || !lines_do(lines, ActKind::Resolve)
}

/// Whether what some instruction reads or writes lacks an act. What one does is dropped before the next is made.
fn instructions_lack(
    alloc: Global,
    plain: &Plain,
    bodies: &Bodies,
    reads: &Lacking,
    writes: &Lacking,
) -> Result<bool, AllocError>
    requires folded { IsFolded plain.now.description plain.now }
    requires table { reads.now.context.now.table.now.items.now ≡ plain.now.description.items }
    requires bodies { AreBodies plain.now.description.items bodies.now }
    requires context { writes.now.context.now ≡ reads.now.context.now }
    ensures { let all = plain.now.description.items in IfOk result (λ lack. lack ≡ list_any (λ item. behaviour_lacks_of (setting_in reads.now.context.now) reads.now.flags writes.now.flags (behaviour_of all (known_of all) item)) all) }
{
    let table = reads.context.table;
    for number in 0..table.items.len() {
        let effect = behaviour(alloc, table, plain, bodies, number)?;
        if behaviour_lacks(&effect, reads, writes) {
            return Ok(true);
        }
    }
    Ok(false)
}

/// Whether an act is lacking, or the number of stages is wrong.
fn lack(
    alloc: Global,
    setting: &Setting,
    plain: &Plain,
    bodies: &Bodies,
    lines: &[MicroItem],
) -> Result<bool, AllocError>
    requires folded { IsFolded plain.now.description plain.now }
    requires table { setting.now.context.now.table.now.items.now ≡ plain.now.description.items }
    requires bodies { AreBodies plain.now.description.items bodies.now }
    ensures { let all = plain.now.description.items in IfOk result (λ lack. lack ≡ is_lacking (setting_in setting.now.context.now) (known_of all) (acts_from 0 lines.now) (stage_count_of lines.now)) }
{
    if is_incomplete(lines) {
        return Ok(true);
    }
    let reads = Lacking::new(alloc, setting.context, lines, ActKind::Read)?;
    let writes = Lacking::new(alloc, setting.context, lines, ActKind::Write)?;
    let lack = instructions_lack(alloc, plain, bodies, &reads, &writes)?;
    Ok(lack)
}

fn micro_break(
    alloc: Global,
    setting: &Setting,
    plain: &Plain,
    bodies: &Bodies,
    micro: &Micro,
) -> Result<Option<usize>, AllocError>
    requires folded { IsFolded plain.now.description plain.now }
    requires table { setting.now.context.now.table.now.items.now ≡ plain.now.description.items }
    requires bodies { AreBodies plain.now.description.items bodies.now }
    requires setting { setting_in setting.now.context.now ≡ setting_of plain.now.description.items }
    ensures { let all = plain.now.description.items in IfOk result (λ found. found ≡ first_of (stage_breaks (setting_of all) (known_of all) (Some micro.now))) }
{
    let lines = micro.items.as_slice();
    if let Some(at) = first_wrong(alloc, setting.context.table, lines)? {
        return Ok(Some(at));
    }
    if lack(alloc, setting, plain, bodies, lines)? {
        Ok(Some(micro.close))
    } else {
        Ok(None)
    }
}

/// The first place at which the micro architecture of a description breaks a rule of stages: an act that stands a second
/// time or too late, a `forward` of the memory or a second one, or the `}` where an act is lacking or there are not 1 to
/// 16 stages; None where there is none.
pub fn first_stage_break(
    alloc: Global,
    setting: &Setting,
    plain: &Plain,
    bodies: &Bodies,
) -> Result<Option<usize>, AllocError>
    requires folded { IsFolded plain.now.description plain.now }
    requires table { setting.now.context.now.table.now.items.now ≡ plain.now.description.items }
    requires bodies { AreBodies plain.now.description.items bodies.now }
    requires setting { setting_in setting.now.context.now ≡ setting_of plain.now.description.items }
    ensures { let d = plain.now.description in IfOk result (λ found. found ≡ first_of (stage_breaks (setting_of d.items) (known_of d.items) d.micro)) }
{
    match &plain.description.micro {
        None => Ok(None),
        Some(micro) => micro_break(alloc, setting, plain, bodies, micro),
    }
}
