//! Lines of assembly.

ghost use Rattle.std.specs.Prelude.{◌≡◌, map, IfOk};
ghost use Rattle.std.specs.List.{filter_map};
ghost use Rattle.vg_inline.specs.Inline.{number_or};
ghost use Rattle.vg_isa.specs.declared.instr.Part.TheVariants as variants;
ghost use Rattle.vg_names.specs.Numbers.{number_named as number_by};
ghost use Rattle.vg_type.specs.Setting.{setting_in};
ghost use Rattle.vg_tree.specs.Resource.{register_id as register_by};
ghost use Rattle.vg_declare.specs.AbiRole.{number_of as number_in};
ghost use Rattle.vg_processor.specs.IsaOf.{field_id as field_by, first_some, number_part as number_part_of, part_of as part_by, template_by};

use crate::fields::field_id;
use crate::numbering::{number_named, register_id};
use crate::text::text_of;
use crate::worth::number_of;
use sqlite_items::Items;
use std::alloc::{AllocError, Global};
use vg_ast::{Expr, Item, Name, NumberFormat};
use vg_isa::{FieldId, Part, RegId};
use vg_tree::Frame;

/// The register file of a name.
fn register_named(name: &Name, frame: &Frame) -> Result<RegId, AllocError>
    ensures { IfOk result (λ it. it.0 ≡ register_by (setting_in frame.now.setting.now.context.now).all (number_or (number_by (setting_in frame.now.setting.now.context.now).all name.now.text))) }
{
    let number = number_named(name.text.as_slice(), frame.setting);
    register_id(number, frame.resources, frame.setting)
}

fn number_part(format: NumberFormat, field: FieldId) -> Part
    ensures { result ≡ number_part_of format field }
{
    match format {
        NumberFormat::Decimal => Part::Decimal(field),
        NumberFormat::Signed => Part::Signed(field),
        NumberFormat::Hex => Part::Hex(field),
    }
}

fn register_part(file: &Name, field: &Name, frame: &Frame) -> Result<Part, AllocError>
    ensures { let s = setting_in frame.now.setting.now.context.now in IfOk result (λ it. it ≡ variants.Register (record { 0 = register_by s.all (number_or (number_by s.all file.now.text)) }) (field_by s frame.now.name.now field.now.text)) }
{
    let register = register_named(file, frame)?;
    let field = field_id(field.text.as_slice(), frame)?;
    Ok(Part::Register(register, field))
}

fn target_part(field: &Name, shift: &Expr, frame: &Frame) -> Result<Part, AllocError>
    ensures { let s = setting_in frame.now.setting.now.context.now in IfOk result (λ it. it ≡ variants.Target (field_by s frame.now.name.now field.now.text) (number_in s shift.now)) }
{
    let field = field_id(field.text.as_slice(), frame)?;
    Ok(Part::Target(field, number_of(shift, frame.setting)))
}

fn part_of(alloc: Global, part: &vg_ast::Part, frame: &Frame) -> Result<Part, AllocError>
    ensures { IfOk result (λ it. it ≡ part_by (setting_in frame.now.setting.now.context.now) frame.now.name.now part.now) }
{
    match part {
        vg_ast::Part::Text { text, .. } => {
            let text = text_of(alloc, text.as_slice())?;
            Ok(Part::Lit(text))
        }
        vg_ast::Part::Mnemonic { .. } => Ok(Part::Mnemonic),
        vg_ast::Part::Register { file, field, .. } => register_part(file, field, frame),
        vg_ast::Part::Number { format, field, .. } => {
            let field = field_id(field.text.as_slice(), frame)?;
            Ok(number_part(*format, field))
        }
        vg_ast::Part::Target { field, shift, .. } => target_part(field, shift.get(), frame),
    }
}

fn parts_of(alloc: Global, parts: &[vg_ast::Part], frame: &Frame) -> Result<Items<Part>, AllocError>
    ensures { IfOk result (λ it. it ≡ map (part_by (setting_in frame.now.setting.now.context.now) frame.now.name.now) parts.now) }
{
    let mut row = Items::new(alloc);
    for part in parts {
        row.push(part_of(alloc, part, frame)?)?;
    }
    Ok(row)
}

/// The parts of an item, where it is the assembly of the instruction of this name.
fn template_in(
    alloc: Global,
    item: &Item,
    instruction: &[char],
    frame: &Frame,
) -> Result<Option<Items<Part>>, AllocError>
    ensures { IfOk result (λ it. it ≡ template_by (setting_in frame.now.setting.now.context.now) instruction.now frame.now.name.now item.now) }
{
    match item {
        Item::Assembly { name, parts, .. } => {
            if name.text.as_slice() != instruction {
                return Ok(None);
            }
            let parts = parts_of(alloc, parts.as_slice(), frame)?;
            Ok(Some(parts))
        }
        _ => Ok(None),
    }
}

/// The parts of the first assembly of the instruction of this name.
pub fn template_of(
    alloc: Global,
    items: &[Item],
    instruction: &[char],
    frame: &Frame,
) -> Result<Option<Items<Part>>, AllocError>
    ensures { IfOk result (λ it. it ≡ first_some (filter_map (template_by (setting_in frame.now.setting.now.context.now) instruction.now frame.now.name.now) items.now)) }
{
    for item in items {
        if let Some(parts) = template_in(alloc, item, instruction, frame)? {
            return Ok(Some(parts));
        }
    }
    Ok(None)
}
