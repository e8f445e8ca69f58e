//! The instructions of a description.

ghost use Rattle.std.specs.Prelude.{◌≡◌, true, IfOk};
ghost use Rattle.std.specs.List.{filter_map, list_all};
ghost use Rattle.vg_inline.specs.Bodies.{AreBodies};
ghost use Rattle.vg_inline.specs.InPlace.{known_of};
ghost use Rattle.vg_inline.specs.Rules.{IsFolded};
ghost use Rattle.vg_type.specs.Setting.{setting_in};
ghost use Rattle.vg_processor.specs.IsaOf.{instruction_of as instruction_by};
ghost use Rattle.vg_processor.specs.Held.{holds_instruction};

use crate::instruction::instruction_of;
use crate::lists::push_some;
use sqlite_items::Items;
use std::alloc::{AllocError, Global};
use vg_inline::{Bodies, Plain, behaviour};
use vg_isa::Instr;
use vg_tree::Machine;

/// The instructions of a description, in the order of its text. What one does is dropped before the next is made.
pub fn instructions_of(
    alloc: Global,
    machine: &Machine,
    plain: &Plain,
    bodies: &Bodies,
) -> Result<Items<Instr>, AllocError>
    requires folded { IsFolded plain.now.description plain.now }
    requires table { machine.now.setting.now.context.now.table.now.items.now ≡ plain.now.description.items }
    requires bodies { AreBodies plain.now.description.items bodies.now }
    requires held { list_all (holds_instruction (setting_in machine.now.setting.now.context.now)) (setting_in machine.now.setting.now.context.now).all ≡ true }
    ensures { let s = setting_in machine.now.setting.now.context.now in IfOk result (λ it. it ≡ filter_map (instruction_by s (known_of plain.now.description.items)) s.all) }
{
    let table = machine.setting.context.table;
    let mut instructions = Items::new(alloc);
    for number in 0..table.items.len() {
        let effect = behaviour(alloc, table, plain, bodies, number)?;
        let instruction = instruction_of(alloc, &table.items[number], &effect, machine)?;
        push_some(&mut instructions, instruction)?;
    }
    Ok(instructions)
}
