//! The whole processor.

ghost use Rattle.std.specs.Prelude.{◌≡◌, true, IfOk};
ghost use Rattle.std.specs.Option.{option_map};
ghost use Rattle.vg_inline.specs.Bodies.{AreBodies};
ghost use Rattle.vg_inline.specs.InPlace.{known_of};
ghost use Rattle.vg_inline.specs.Rules.{IsFolded};
ghost use Rattle.vg_isa.specs.Typing.{is_width};
ghost use Rattle.vg_type.specs.Item.{first_format, setting_of, width_given};
ghost use Rattle.vg_type.specs.Setting.{setting_in};
ghost use Rattle.vg_tree.specs.Number.{width_or as width_or_none};
ghost use Rattle.vg_processor.specs.IsaOf.{abi_of as abi_by, isa_by, isa_of, micro_of as micro_by};
ghost use Rattle.vg_processor.specs.Held.{IsHeld, holds_interface};

use crate::formats::formats_of;
use crate::instructions::instructions_of;
use crate::interface::abi_of;
use crate::narrow::width_of;
use crate::registers::{counter_of, memory_name, registers_of};
use crate::stages::micro_of;
use crate::text::text_of;
use std::alloc::{AllocError, Global};
use vg_bits::Width;
use vg_inline::{Bodies, Plain};
use vg_isa::{Abi, Micro, Parts};
use vg_tree::{Machine, width_or, work_out_machine};
use vg_type::Setting;

/// The width of the instruction words: that of the first format.
fn word_of(setting: &Setting) -> Width
    requires { is_width (width_or_none (width_given (setting_in setting.now.context.now).globals (first_format (setting_in setting.now.context.now).all))) ≡ true }
    ensures { result ≡ width_or_none (width_given (setting_in setting.now.context.now).globals (first_format (setting_in setting.now.context.now).all)) }
{
    width_of(width_or(setting.word))
}

/// The binary interface, where there is one.
fn interface_of(
    alloc: Global,
    abi: &Option<vg_ast::Abi>,
    machine: &Machine,
) -> Result<Option<Abi>, AllocError>
    requires { holds_interface (setting_in machine.now.setting.now.context.now) abi.now ≡ true }
    ensures { IfOk result (λ it. it ≡ option_map (abi_by (setting_in machine.now.setting.now.context.now)) abi.now) }
{
    match abi {
        None => Ok(None),
        Some(abi) => {
            let made = abi_of(alloc, abi, machine)?;
            Ok(Some(made))
        }
    }
}

/// The micro architecture, where there is one.
fn stages_of(
    alloc: Global,
    micro: &Option<vg_ast::Micro>,
    machine: &Machine,
) -> Result<Option<Micro>, AllocError>
    ensures { IfOk result (λ it. it ≡ option_map (micro_by (setting_in machine.now.setting.now.context.now)) micro.now) }
{
    match micro {
        None => Ok(None),
        Some(micro) => {
            let made = micro_of(alloc, micro, machine)?;
            Ok(Some(made))
        }
    }
}

/// The processor of a description whose items are numbered.
fn parts_of(
    alloc: Global,
    machine: &Machine,
    plain: &Plain,
    bodies: &Bodies,
) -> Result<Parts, AllocError>
    requires folded { IsFolded plain.now.description plain.now }
    requires table { machine.now.setting.now.context.now.table.now.items.now ≡ plain.now.description.items }
    requires bodies { AreBodies plain.now.description.items bodies.now }
    requires held { IsHeld (setting_in machine.now.setting.now.context.now) plain.now.description }
    ensures { let d = plain.now.description in IfOk result (λ it. it ≡ isa_by (setting_in machine.now.setting.now.context.now) (known_of d.items) d) }
{
    let items = machine.setting.context.table.items;
    let name = text_of(alloc, plain.description.name.text.as_slice())?;
    let pc = counter_of(alloc, items, machine.setting)?;
    let memory = memory_name(alloc, items)?;
    let regs = registers_of(alloc, items, machine.setting)?;
    let formats = formats_of(alloc, items, machine.setting)?;
    let instrs = instructions_of(alloc, machine, plain, bodies)?;
    let abi = interface_of(alloc, &plain.description.abi, machine)?;
    let micro = stages_of(alloc, &plain.description.micro, machine)?;
    Ok(Parts {
        name,
        word: word_of(machine.setting),
        pc,
        memory,
        regs,
        formats,
        instrs,
        abi,
        micro,
    })
}

/// The processor that a description stands for, unless memory ends.
#[tactic(auto, using(crate::proofs::WholeLemmas::whole_is))]
pub fn make_parts(
    alloc: Global,
    setting: &Setting,
    plain: &Plain,
    bodies: &Bodies,
) -> Result<Parts, AllocError>
    requires folded { IsFolded plain.now.description plain.now }
    requires table { setting.now.context.now.table.now.items.now ≡ plain.now.description.items }
    requires setting { setting_in setting.now.context.now ≡ setting_of plain.now.description.items }
    requires bodies { AreBodies plain.now.description.items bodies.now }
    requires held { IsHeld (setting_in setting.now.context.now) plain.now.description }
    ensures { IfOk result (λ it. it ≡ isa_of plain.now.description) }
{
    let machine = work_out_machine(alloc, setting)?;
    let parts = parts_of(alloc, &machine, plain, bodies);
    let Machine {
        setting: _setting,
        resources: _resources,
        formats: _formats,
        memory: _memory,
    } = machine;
    parts
}
