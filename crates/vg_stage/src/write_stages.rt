//! In which stages resources are written.
ghost use Rattle.std.specs.Prelude.{◌≡◌, Some, None, IfOk, OnOk, if◌then◌else◌};
ghost use Rattle.std.specs.List.{list_any};
ghost use Rattle.std.specs.Option.{option_or};
ghost use Rattle.std.specs.Str.{bytes_eq};
ghost use Rattle.std.proofs.Props.{props};
ghost use Rattle.vg_names.specs.Definition.{Text};
ghost use Rattle.vg_names.specs.Table.{found_at};
ghost use Rattle.vg_stage.specs.StageMet.{does, first_stage, is_earlier, is_write_to, stage_if};
ghost use Rattle.vg_stage.specs.StageOrder.{acts_from, is_too_late};
ghost use Rattle.vg_stage.specs.declared.act_kind.ActKind.TheVariants.{Write};

use crate::act_kind::ActKind;
use crate::stage_act::{acts_of, behind, have};
use indexmap::IndexMap;
use std::alloc::{AllocError, Global};
use vg_ast::{Act, MicroItem};

/// The stages of writes, for the lines of a micro architecture.
#[derive(Drop)]
pub(crate) struct WriteStages<'a> {
    pub lines: &'a [MicroItem],
    /// The stage of the first write of each resource, by its name.
    stages: IndexMap<&'a [char], usize>,
    /// The stage of the first write.
    first: Option<usize>,
    ghost each: { (text : Text) → found_at stages text ≡ first_stage (is_write_to text) (acts_from 0 lines.now) } by { Prim.hlevel props },
    ghost any: { first ≡ first_stage (does Write) (acts_from 0 lines.now) } by { Prim.hlevel props },
}

/// Notes the stage of a write of a resource, unless it has one.
fn note_name<'a>(
    stages: &mut IndexMap<&'a [char], usize>,
    text: &'a [char],
    stage: usize,
) -> Result<(), AllocError>
    ensures { OnOk result ((other : Text) → found_at stages.new other ≡ option_or (found_at stages.old other) (if bytes_eq text.now other then Some stage else None)) }
{
    if stages.contains_key(text) {
        return Ok(());
    }
    stages.insert(text, stage)?;
    Ok(())
}

/// Notes the stage of an act, if it is the first write of its resource.
fn note_act<'a>(
    stages: &mut IndexMap<&'a [char], usize>,
    act: &'a Act,
    stage: usize,
) -> Result<(), AllocError>
    ensures { OnOk result ((other : Text) → found_at stages.new other ≡ option_or (found_at stages.old other) (stage_if (is_write_to other act.now) stage)) }
{
    match act {
        Act::Write { resource, .. } => note_name(stages, resource.text.as_slice(), stage),
        Act::Read { .. } | Act::Compute { .. } | Act::Resolve { .. } => Ok(()),
    }
}

/// Notes the stage of these acts.
fn note_acts<'a>(
    stages: &mut IndexMap<&'a [char], usize>,
    acts: &'a [Act],
    stage: usize,
) -> Result<(), AllocError>
    ensures { OnOk result ((other : Text) → found_at stages.new other ≡ option_or (found_at stages.old other) (stage_if (list_any (is_write_to other) acts.now) stage)) }
{
    for act in acts {
        note_act(stages, act, stage)?;
    }
    Ok(())
}

/// The stage of the first write of each resource.
fn stages_of<'a>(
    alloc: Global,
    lines: &'a [MicroItem],
) -> Result<IndexMap<&'a [char], usize>, AllocError>
    ensures { IfOk result (λ stages. (text : Text) → found_at stages text ≡ first_stage (is_write_to text) (acts_from 0 lines.now)) }
{
    let mut stages = IndexMap::new(alloc);
    let mut stage = 0;
    for line in lines {
        note_acts(&mut stages, acts_of(line), stage)?;
        stage = behind(stage, line);
    }
    Ok(stages)
}

/// The stage of the first write.
fn first_write(lines: &[MicroItem]) -> Option<usize>
    ensures { result ≡ first_stage (does Write) (acts_from 0 lines.now) }
{
    let mut stage = 0;
    for line in lines {
        if have(acts_of(line), ActKind::Write) {
            return Some(stage);
        }
        stage = behind(stage, line);
    }
    None
}

impl<'a> WriteStages<'a> {
    pub fn new(alloc: Global, lines: &'a [MicroItem]) -> Result<WriteStages<'a>, AllocError>
        ensures { IfOk result (λ writes. writes.lines.now ≡ lines.now) }
    {
        let stages = stages_of(alloc, lines)?;
        let first = first_write(lines);
        Ok(WriteStages {
            lines,
            stages,
            first,
        })
    }
}

/// The stage of the first write of the resource of a name.
fn write_of(writes: &WriteStages, text: &[char]) -> Option<usize>
    ensures { result ≡ first_stage (is_write_to text.now) (acts_from 0 writes.now.lines.now) }
{
    writes.stages.get(text).copied()
}

/// The stage of the first write of all.
fn any_write(writes: &WriteStages) -> Option<usize>
    ensures { result ≡ first_stage (does Write) (acts_from 0 writes.now.lines.now) }
{
    writes.first
}

fn is_below(written: Option<usize>, stage: usize) -> bool
    ensures { result ≡ is_earlier written stage }
{
    match written {
        None => false,
        Some(written) => written < stage,
    }
}

/// Whether an act in this stage stands behind a write that may not stand before it.
pub(crate) fn is_late(writes: &WriteStages, act: &Act, stage: usize) -> bool
    ensures { result ≡ list_any (is_too_late (stage, act.now)) (acts_from 0 writes.now.lines.now) }
{
    match act {
        Act::Read { resource, .. } => is_below(write_of(writes, resource.text.as_slice()), stage),
        Act::Resolve { .. } => is_below(any_write(writes), stage),
        Act::Write { .. } => false,
        Act::Compute { .. } => false,
    }
}
