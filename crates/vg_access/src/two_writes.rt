//! The rule that no path of an instruction writes a resource twice.
ghost use Rattle.std.specs.Prelude.{◌≡◌, IfOk};
ghost use Rattle.vg_inline.specs.Bodies.{AreBodies};
ghost use Rattle.vg_inline.specs.InPlace.{Known, behaviour_of, known_of};
ghost use Rattle.vg_inline.specs.Rules.{IsFolded};
ghost use Rattle.vg_names.specs.First.{first_of};
ghost use Rattle.vg_tree.specs.Access.{frame_of as frame_by, in_behaviour, in_instruction, second_writes, two_writes};
ghost use Rattle.vg_tree.specs.Frame.{frame_in};
ghost use Rattle.vg_type.specs.Item.{setting_of};
ghost use Rattle.vg_type.specs.Setting.{setting_in};

use crate::second_write::second_write;
use std::alloc::{AllocError, Global};
use vg_ast::Item;
use vg_inline::{Bodies, Effect, Plain, behaviour};
use vg_tree::{Frame, Machine, frame_of, work_out_fields, work_out_machine};
use vg_type::Setting;

/// The first second write of a behaviour.
fn behaviour_break(
    alloc: Global,
    effect: &Option<Effect>,
    frame: &Frame,
) -> Result<Option<usize>, AllocError>
    ensures { IfOk result (λ found. found ≡ first_of (in_behaviour (second_writes (frame_in frame.now)) effect.now)) }
{
    match effect {
        None => Ok(None),
        Some(effect) => {
            let mut path = Vec::new(alloc);
            let mut others = Vec::new(alloc);
            second_write(alloc, effect, frame, &mut path, &mut others)
        }
    }
}

/// That of a behaviour of an instruction in the format of a name.
fn in_format(
    alloc: Global,
    format: &[char],
    effect: &Option<Effect>,
    machine: &Machine,
) -> Result<Option<usize>, AllocError>
    ensures { let setting = setting_in machine.now.setting.now.context.now in IfOk result (λ found. found ≡ first_of (in_behaviour (second_writes (frame_by setting format.now)) effect.now)) }
{
    let fields = work_out_fields(alloc, format, machine.setting.context)?;
    let frame = frame_of(machine, format, fields.as_slice());
    let found = behaviour_break(alloc, effect, &frame);
    let Frame {
        setting: _setting,
        resources: _resources,
        memory: _memory,
        name: _name,
        format: _format,
        fields: _fields,
    } = frame;
    found
}

/// That of an item that does this.
fn item_break(
    alloc: Global,
    item: &Item,
    effect: &Option<Effect>,
    machine: &Machine,
) -> Result<Option<usize>, AllocError>
    ensures { let setting = setting_in machine.now.setting.now.context.now in IfOk result (λ found. (known : Known) → effect.now ≡ behaviour_of setting.all known item.now → found ≡ first_of (in_instruction setting known second_writes item.now)) }
{
    match item {
        Item::Instruction { format, .. } => {
            in_format(alloc, format.text.as_slice(), effect, machine)
        }
        _ => Ok(None),
    }
}

/// The first of all items.
fn first_break(
    alloc: Global,
    machine: &Machine,
    plain: &Plain,
    bodies: &Bodies,
) -> Result<Option<usize>, AllocError>
    requires folded { IsFolded plain.now.description plain.now }
    requires table { machine.now.setting.now.context.now.table.now.items.now ≡ plain.now.description.items }
    requires setting { setting_in machine.now.setting.now.context.now ≡ setting_of plain.now.description.items }
    requires bodies { AreBodies plain.now.description.items bodies.now }
    ensures { let all = plain.now.description.items in IfOk result (λ found. found ≡ first_of (two_writes (setting_of all) (known_of all))) }
{
    let table = machine.setting.context.table;
    for number in 0..table.items.len() {
        let effect = behaviour(alloc, table, plain, bodies, number)?;
        if let Some(at) = item_break(alloc, &table.items[number], &effect, machine)? {
            return Ok(Some(at));
        }
    }
    Ok(None)
}

/// The first place at which a behaviour writes a resource a second time: on one path, or on another path at another index
/// or address, or in another size. It is the name that is written; None where there is none. What one instruction does is
/// dropped before the next is made.
pub fn first_two_writes(
    alloc: Global,
    setting: &Setting,
    plain: &Plain,
    bodies: &Bodies,
) -> Result<Option<usize>, AllocError>
    requires folded { IsFolded plain.now.description plain.now }
    requires table { setting.now.context.now.table.now.items.now ≡ plain.now.description.items }
    requires setting { setting_in setting.now.context.now ≡ setting_of plain.now.description.items }
    requires bodies { AreBodies plain.now.description.items bodies.now }
    ensures { let all = plain.now.description.items in IfOk result (λ found. found ≡ first_of (two_writes (setting_of all) (known_of all))) }
{
    let machine = work_out_machine(alloc, setting)?;
    let found = first_break(alloc, &machine, plain, bodies);
    let Machine {
        setting: _setting,
        resources: _resources,
        formats: _formats,
        memory: _memory,
    } = machine;
    found
}
