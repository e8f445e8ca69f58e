//! The fields that encodings fix.

ghost use Rattle.std.specs.Prelude.{◌≡◌, ◌++◌, true, flat_map, map, IfOk, OnOk};
ghost use Rattle.std.specs.List.{list_all};
ghost use Rattle.vg_type.specs.Setting.{setting_in};
ghost use Rattle.vg_processor.specs.IsaOf.{fixed_by, fixed_field as fixed_as};
ghost use Rattle.vg_processor.specs.Held.{holds_fix, holds_fixed_by};

use crate::fields::{field_id, field_named, fields_in, width_named};
use crate::worth::number_of;
use sqlite_items::Items;
use std::alloc::{AllocError, Global};
use vg_ast::{Fix, Item};
use vg_bits::{Bits, Width};
use vg_isa::FieldId;
use vg_tree::Frame;

/// What a field is fixed to.
fn value_of(fix: &Fix, frame: &Frame) -> Bits
    requires { holds_fix (setting_in frame.now.setting.now.context.now) frame.now.name.now fix.now ≡ true }
    ensures { result ≡ (fixed_as (setting_in frame.now.setting.now.context.now) frame.now.name.now fix.now).1 }
{
    let fields = fields_in(frame.setting.context.table.item(frame.name));
    let field = field_named(fields, fix.name.text.as_slice());
    let width = Width::of(width_named(field, frame.setting));
    Bits::of(width, number_of(fix.value.get(), frame.setting))
}

/// A field that is fixed, with its value.
fn fixed_field(fix: &Fix, frame: &Frame) -> Result<(FieldId, Bits), AllocError>
    requires { holds_fix (setting_in frame.now.setting.now.context.now) frame.now.name.now fix.now ≡ true }
    ensures { IfOk result (λ it. it ≡ fixed_as (setting_in frame.now.setting.now.context.now) frame.now.name.now fix.now) }
{
    let field = field_id(fix.name.text.as_slice(), frame)?;
    Ok((field, value_of(fix, frame)))
}

/// The fields that fixes fix.
fn fixes_of(
    alloc: Global,
    fixes: &[Fix],
    frame: &Frame,
) -> Result<Items<(FieldId, Bits)>, AllocError>
    requires { list_all (holds_fix (setting_in frame.now.setting.now.context.now) frame.now.name.now) fixes.now ≡ true }
    ensures { IfOk result (λ it. it ≡ map (fixed_as (setting_in frame.now.setting.now.context.now) frame.now.name.now) fixes.now) }
{
    let mut fixed = Items::new(alloc);
    for fix in fixes {
        fixed.push(fixed_field(fix, frame)?)?;
    }
    Ok(fixed)
}

/// The fields that an item fixes, where it is the encoding of the instruction of this name.
fn fixed_in(
    alloc: Global,
    item: &Item,
    instruction: &[char],
    frame: &Frame,
) -> Result<Items<(FieldId, Bits)>, AllocError>
    requires { holds_fixed_by (setting_in frame.now.setting.now.context.now) instruction.now frame.now.name.now item.now ≡ true }
    ensures { IfOk result (λ it. it ≡ fixed_by (setting_in frame.now.setting.now.context.now) instruction.now frame.now.name.now item.now) }
{
    match item {
        Item::Encoding { name, fixes, .. } => {
            if name.text.as_slice() == instruction {
                fixes_of(alloc, fixes.as_slice(), frame)
            } else {
                Ok(Items::new(alloc))
            }
        }
        _ => Ok(Items::new(alloc)),
    }
}

/// The fields that the encodings of the instruction of this name fix.
#[tactic(auto, using(crate::proofs::LoopLemmas::each_more))]
pub fn fixed_of(
    alloc: Global,
    items: &[Item],
    instruction: &[char],
    frame: &Frame,
) -> Result<Items<(FieldId, Bits)>, AllocError>
    requires { list_all (holds_fixed_by (setting_in frame.now.setting.now.context.now) instruction.now frame.now.name.now) items.now ≡ true }
    ensures { IfOk result (λ it. it ≡ flat_map (fixed_by (setting_in frame.now.setting.now.context.now) instruction.now frame.now.name.now) items.now) }
{
    let mut fixed = Items::new(alloc);
    for item in items {
        fixed.append(fixed_in(alloc, item, instruction, frame)?)?;
    }
    Ok(fixed)
}
