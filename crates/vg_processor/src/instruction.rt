//! One instruction.

ghost use Rattle.std.specs.Prelude.{◌≡◌, true, IfOk};
ghost use Rattle.std.specs.List.{list_all};
ghost use Rattle.vg_inline.specs.InPlace.{Known, behaviour_of};
ghost use Rattle.vg_type.specs.Setting.{setting_in};
ghost use Rattle.vg_tree.specs.Fields.{sorts_given};
ghost use Rattle.vg_processor.specs.IsaOf.{instr_of as instr_by, instruction_of as instruction_by};
ghost use Rattle.vg_processor.specs.Held.{holds_fixed_by, holds_instruction};
ghost use Rattle.vg_processor.specs.Instruction.{address_place, instr_from as instr_with, spots_of, trees_of};

use crate::encoding::fixed_of;
use crate::outcome::Outcome;
use crate::read_place::ReadPlace;
use crate::template::template_of;
use crate::text::text_of;
use crate::writes::outcome_of;
use sqlite_items::Items;
use std::alloc::{AllocError, Global};
use vg_ast::{Item, Name};
use vg_bits::Bits;
use vg_inline::Effect;
use vg_isa::{Expr, FieldId, FormatId, Instr, Part, Text};
use vg_tree::{Frame, Machine, Written, frame_of, work_out_fields};
use vg_type::Sort;

/// Where the guard and the value of what is written stand.
fn spots(written: &Option<Written>) -> Option<(Option<usize>, usize)>
    ensures { result ≡ spots_of written.now }
{
    match written {
        None => None,
        Some(written) => Some((written.guard_spot, written.value_spot)),
    }
}

/// The guard and the value of what is written.
fn trees(written: Option<Written>) -> Option<(Expr, Expr)>
    ensures { result ≡ trees_of written }
{
    match written {
        None => None,
        Some(written) => Some((written.guard.into_inner(), written.value.into_inner())),
    }
}

fn address(read: Option<ReadPlace>) -> Option<usize>
    ensures { result ≡ address_place read }
{
    match read {
        None => None,
        Some(read) => Some(read.address_at),
    }
}

/// An instruction of these parts.
fn instr_from(
    name: Text,
    format: FormatId,
    fixed: Items<(FieldId, Bits)>,
    template: Option<Items<Part>>,
    outcome: Outcome,
) -> Instr
    ensures { result ≡ instr_with name format fixed template outcome }
{
    let next_spots = spots(&outcome.next);
    let read_spot = address(outcome.read);
    Instr {
        name,
        format,
        fixed,
        writes: outcome.writes,
        next: trees(outcome.next),
        template,
        next_spots,
        read_spot,
    }
}

/// The instruction of a name that does this.
#[tactic(auto, using(crate::proofs::InstrLemmas::instr_is))]
fn instr_of(alloc: Global, name: &Name, effect: &Effect, frame: &Frame) -> Result<Instr, AllocError>
    requires { list_all (holds_fixed_by (setting_in frame.now.setting.now.context.now) name.now.text frame.now.name.now) (setting_in frame.now.setting.now.context.now).all ≡ true }
    ensures { IfOk result (λ it. it ≡ instr_by (setting_in frame.now.setting.now.context.now) name.now frame.now.name.now effect.now) }
{
    let items = frame.setting.context.table.items;
    let written = text_of(alloc, name.text.as_slice())?;
    let fixed = fixed_of(alloc, items, name.text.as_slice(), frame)?;
    let template = template_of(alloc, items, name.text.as_slice(), frame)?;
    let outcome = outcome_of(alloc, effect, frame)?;
    Ok(instr_from(written, frame.format, fixed, template, outcome))
}

/// The frame of an instruction in the format of a name, of which this is what the fields are.
#[tactic(auto, using(crate::proofs::InstrLemmas::format_kept))]
fn named_frame<'a>(machine: &'a Machine<'a>, name: &'a [char], fields: &'a [Sort]) -> Frame<'a>
    requires { fields.now ≡ sorts_given (setting_in machine.now.setting.now.context.now) name.now }
    ensures setting { result.setting.now ≡ machine.now.setting.now }
    ensures name { result.name.now ≡ name.now }
{
    let Frame {
        format,
        setting: _setting,
        resources: _resources,
        memory: _memory,
        name: _name,
        fields: _fields,
    } = frame_of(machine, name, fields);
    Frame {
        setting: machine.setting,
        resources: machine.resources.as_slice(),
        memory: machine.memory,
        name,
        format,
        fields,
    }
}

/// The instruction of a name in the format of another that does this.
fn instr_in(
    alloc: Global,
    name: &Name,
    format: &[char],
    effect: &Effect,
    machine: &Machine,
) -> Result<Instr, AllocError>
    requires { list_all (holds_fixed_by (setting_in machine.now.setting.now.context.now) name.now.text format.now) (setting_in machine.now.setting.now.context.now).all ≡ true }
    ensures { IfOk result (λ it. it ≡ instr_by (setting_in machine.now.setting.now.context.now) name.now format.now effect.now) }
{
    let fields = work_out_fields(alloc, format, machine.setting.context)?;
    let frame = named_frame(machine, format, fields.as_slice());
    let made = instr_of(alloc, name, effect, &frame);
    let Frame {
        setting: _setting,
        resources: _resources,
        memory: _memory,
        name: _name,
        format: _format,
        fields: _fields,
    } = frame;
    made
}

/// The instruction that an item declares, where it does this.
pub(crate) fn instruction_of(
    alloc: Global,
    item: &Item,
    effect: &Option<Effect>,
    machine: &Machine,
) -> Result<Option<Instr>, AllocError>
    requires { holds_instruction (setting_in machine.now.setting.now.context.now) item.now ≡ true }
    ensures { let setting = setting_in machine.now.setting.now.context.now in IfOk result (λ it. (known : Known) → effect.now ≡ behaviour_of setting.all known item.now → it ≡ instruction_by setting known item.now) }
{
    match item {
        Item::Instruction { name, format, .. } => match effect {
            None => Ok(None),
            Some(effect) => {
                let instr = instr_in(alloc, name, format.text.as_slice(), effect, machine)?;
                Ok(Some(instr))
            }
        },
        _ => Ok(None),
    }
}
