//! The first act or `forward` at fault.
ghost use Rattle.std.specs.Prelude.{◌≡◌, false, [], ◌∷◌, ◌++◌, map, Ok, None, IfOk};
ghost use Rattle.std.specs.Option.{option_copied};
ghost use Rattle.vg_stage.specs.declared.act_kind.ActKind.TheVariants.{Forward};
ghost use Rattle.vg_tree.specs.Resource.{is_memory as is_memory_item};
ghost use Rattle.vg_stage.specs.StageMet.{first_wrong_act, first_wrong_line, is_met, key_of, keys_met, line_keys, placed_at, wrong_act, wrong_forward, wrong_line};
ghost use Rattle.vg_stage.specs.StageOrder.{acts_from};

use crate::act_kind::ActKind;
use crate::stage_act::{behind, key, start};
use crate::write_stages::{WriteStages, is_late};
use indexmap::IndexSet;
use std::alloc::{AllocError, Global};
use vg_ast::{Act, Item, MicroItem, Name};
use vg_names::Table;

/// What was met, each as what it does and the name of the resource.
type Met<'a> = IndexSet<(ActKind, &'a [char])>;

/// Whether this was met; else it is met now.
fn repeats<'a>(met: &mut Met<'a>, kind: ActKind, text: &'a [char]) -> Result<bool, AllocError>
    ensures found { IfOk result (λ found. found ≡ is_met (keys_met met.old) (kind, text.now)) }
    ensures met { result ≡ Ok false → keys_met met.new ≡ keys_met met.old ++ (kind, text.now) ∷ [] }
{
    let added = met.insert((kind, text))?;
    Ok(!added)
}

/// The place of an act at fault; else it is met now.
fn act_break<'a>(
    met: &mut Met<'a>,
    writes: &WriteStages,
    act: &'a Act,
    stage: usize,
) -> Result<Option<usize>, AllocError>
    ensures found { IfOk result (λ found. found ≡ wrong_act (acts_from 0 writes.now.lines.now) (keys_met met.old) (stage, act.now)) }
    ensures met { result ≡ Ok None → keys_met met.new ≡ keys_met met.old ++ key_of act.now ∷ [] }
{
    let (kind, text) = key(act);
    if repeats(met, kind, text)? || is_late(writes, act, stage) {
        Ok(Some(start(act)))
    } else {
        Ok(None)
    }
}

/// The place of the first act at fault of a stage.
fn acts_break<'a>(
    met: &mut Met<'a>,
    writes: &WriteStages,
    acts: &'a [Act],
    stage: usize,
) -> Result<Option<usize>, AllocError>
    ensures found { IfOk result (λ found. found ≡ first_wrong_act (acts_from 0 writes.now.lines.now) (keys_met met.old) (placed_at stage acts.now)) }
    ensures met { result ≡ Ok None → keys_met met.new ≡ keys_met met.old ++ map key_of acts.now }
{
    for act in acts {
        if let Some(at) = act_break(met, writes, act, stage)? {
            return Ok(Some(at));
        }
    }
    Ok(None)
}

fn is_memory(item: Option<&Item>) -> bool
    ensures { result ≡ is_memory_item (option_copied item.entry) }
{
    matches!(item, Some(Item::Memory { .. }))
}

/// The place of a `forward` at fault; else it is met now.
fn forward_break<'a>(
    met: &mut Met<'a>,
    table: &Table,
    at: usize,
    resource: &'a Name,
) -> Result<Option<usize>, AllocError>
    ensures found { IfOk result (λ found. found ≡ wrong_forward table.now.items.now (keys_met met.old) at resource.now.text) }
    ensures met { result ≡ Ok None → keys_met met.new ≡ keys_met met.old ++ (Forward, resource.now.text) ∷ [] }
{
    let text = resource.text.as_slice();
    if is_memory(table.item(text)) || repeats(met, ActKind::Forward, text)? {
        Ok(Some(at))
    } else {
        Ok(None)
    }
}

/// The place of the first act or `forward` at fault in a line, which is a stage of this number or stands before it.
fn line_break<'a>(
    met: &mut Met<'a>,
    table: &Table,
    writes: &WriteStages,
    line: &'a MicroItem,
    stage: usize,
) -> Result<Option<usize>, AllocError>
    ensures found { IfOk result (λ found. found ≡ wrong_line table.now.items.now (acts_from 0 writes.now.lines.now) (keys_met met.old) stage line.now) }
    ensures met { result ≡ Ok None → keys_met met.new ≡ keys_met met.old ++ line_keys line.now }
{
    match line {
        MicroItem::Stage { acts, .. } => acts_break(met, writes, acts.as_slice(), stage),
        MicroItem::Forward { at, resource } => forward_break(met, table, *at, resource),
    }
}

/// The place of the first act or `forward` at fault.
pub(crate) fn first_wrong(
    alloc: Global,
    table: &Table,
    lines: &[MicroItem],
) -> Result<Option<usize>, AllocError>
    ensures { IfOk result (λ found. found ≡ first_wrong_line table.now.items.now (acts_from 0 lines.now) [] 0 lines.now) }
{
    let writes = WriteStages::new(alloc, lines)?;
    let mut met = IndexSet::new(alloc);
    let mut stage = 0;
    for line in lines {
        if let Some(at) = line_break(&mut met, table, &writes, line, stage)? {
            return Ok(Some(at));
        }
        stage = behind(stage, line);
    }
    Ok(None)
}
