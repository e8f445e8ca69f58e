//! The stages of the micro architecture.

ghost use Rattle.std.specs.Prelude.{◌≡◌, map, IfOk};
ghost use Rattle.std.specs.List.{filter_map};
ghost use Rattle.vg_inline.specs.Inline.{number_or};
ghost use Rattle.vg_names.specs.Numbers.{number_named as number_by};
ghost use Rattle.vg_type.specs.Setting.{setting_in};
ghost use Rattle.vg_processor.specs.IsaOf.{act_of as act_by, forwarded as forwarded_by, micro_of as micro_by, stage_of as stage_by};
ghost use Rattle.vg_tree.specs.Resource.{resource_id as resource_by};

use crate::lists::push_some;
use crate::numbering::{number_named, register_id, resource_id};
use crate::text::text_of;
use sqlite_items::Items;
use std::alloc::{AllocError, Global};
use vg_ast::{MicroItem, Name};
use vg_isa::{Act, Micro, RegId, ResourceId, Stage};
use vg_tree::Machine;

/// The resource of a name.
fn resource_named(name: &Name, machine: &Machine) -> Result<ResourceId, AllocError>
    ensures { IfOk result (λ it. it ≡ resource_by (setting_in machine.now.setting.now.context.now).all (number_or (number_by (setting_in machine.now.setting.now.context.now).all name.now.text))) }
{
    let number = number_named(name.text.as_slice(), machine.setting);
    resource_id(number, machine.resources.as_slice(), machine.setting)
}

fn act_of(act: &vg_ast::Act, machine: &Machine) -> Result<Act, AllocError>
    ensures { IfOk result (λ it. it ≡ act_by (setting_in machine.now.setting.now.context.now) act.now) }
{
    match act {
        vg_ast::Act::Read { resource, .. } => {
            let resource = resource_named(resource, machine)?;
            Ok(Act::Read(resource))
        }
        vg_ast::Act::Write { resource, .. } => {
            let resource = resource_named(resource, machine)?;
            Ok(Act::Write(resource))
        }
        vg_ast::Act::Compute { .. } => Ok(Act::Compute),
        vg_ast::Act::Resolve { .. } => Ok(Act::Resolve),
    }
}

fn acts_of(
    alloc: Global,
    given: &[vg_ast::Act],
    machine: &Machine,
) -> Result<Items<Act>, AllocError>
    ensures { IfOk result (λ it. it ≡ map (act_by (setting_in machine.now.setting.now.context.now)) given.now) }
{
    let mut acts = Items::new(alloc);
    for act in given {
        acts.push(act_of(act, machine)?)?;
    }
    Ok(acts)
}

/// The stage that a line declares.
fn stage_of(alloc: Global, line: &MicroItem, machine: &Machine) -> Result<Option<Stage>, AllocError>
    ensures { IfOk result (λ it. it ≡ stage_by (setting_in machine.now.setting.now.context.now) line.now) }
{
    match line {
        MicroItem::Stage { name, acts, .. } => {
            let name = text_of(alloc, name.text.as_slice())?;
            let acts = acts_of(alloc, acts.as_slice(), machine)?;
            Ok(Some(Stage { name, acts }))
        }
        MicroItem::Forward { .. } => Ok(None),
    }
}

#[tactic(auto, using(crate::proofs::LoopLemmas::given_more))]
fn stages_of(
    alloc: Global,
    lines: &[MicroItem],
    machine: &Machine,
) -> Result<Items<Stage>, AllocError>
    ensures { IfOk result (λ it. it ≡ filter_map (stage_by (setting_in machine.now.setting.now.context.now)) lines.now) }
{
    let mut stages = Items::new(alloc);
    for line in lines {
        let stage = stage_of(alloc, line, machine)?;
        push_some(&mut stages, stage)?;
    }
    Ok(stages)
}

/// The register that a line forwards.
fn forwarded(line: &MicroItem, machine: &Machine) -> Result<Option<RegId>, AllocError>
    ensures { IfOk result (λ it. it ≡ forwarded_by (setting_in machine.now.setting.now.context.now) line.now) }
{
    match line {
        MicroItem::Forward { resource, .. } => {
            let number = number_named(resource.text.as_slice(), machine.setting);
            let register = register_id(number, machine.resources.as_slice(), machine.setting)?;
            Ok(Some(register))
        }
        MicroItem::Stage { .. } => Ok(None),
    }
}

#[tactic(auto, using(crate::proofs::LoopLemmas::given_more))]
fn all_forwarded(
    alloc: Global,
    lines: &[MicroItem],
    machine: &Machine,
) -> Result<Items<RegId>, AllocError>
    ensures { IfOk result (λ it. it ≡ filter_map (forwarded_by (setting_in machine.now.setting.now.context.now)) lines.now) }
{
    let mut registers = Items::new(alloc);
    for line in lines {
        let register = forwarded(line, machine)?;
        push_some(&mut registers, register)?;
    }
    Ok(registers)
}

/// The micro architecture.
pub fn micro_of(
    alloc: Global,
    micro: &vg_ast::Micro,
    machine: &Machine,
) -> Result<Micro, AllocError>
    ensures { IfOk result (λ it. it ≡ micro_by (setting_in machine.now.setting.now.context.now) micro.now) }
{
    let stages = stages_of(alloc, micro.items.as_slice(), machine)?;
    let forward = all_forwarded(alloc, micro.items.as_slice(), machine)?;
    Ok(Micro { stages, forward })
}
