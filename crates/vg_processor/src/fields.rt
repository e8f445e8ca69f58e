//! Fields of the format of an instruction.

ghost use Rattle.std.specs.Prelude.{◌≡◌, true, map, IfOk};
ghost use Rattle.std.specs.Option.{option_copied};
ghost use Rattle.vg_ast.specs.declared.field.Field.{Field as FieldOf};
ghost use Rattle.vg_isa.specs.Typing.{is_width};
ghost use Rattle.vg_names.specs.Definition.{fields_of_format};
ghost use Rattle.vg_type.specs.Setting.{setting_in};
ghost use Rattle.vg_processor.specs.IsaOf.{field_id as field_by, field_named as named_in, fields_in as fields_of_item, index_from, width_named as width_by};

use std::alloc::AllocError;
use vg_ast::{Field, Item};
use vg_isa::FieldId;
use vg_tree::Frame;
use vg_type::{Setting, field_type, width_of};

/// The number of the first field of a name, 0 where there is none. So many that they have no numbers wouldn't fit memory.
fn index_among(fields: &[Field], text: &[char]) -> Result<u32, AllocError>
    ensures { IfOk result (λ it. it ≡ index_from 0 (map (λ (field : FieldOf). field.name.text) fields.now) text.now) }
{
    let mut rest = fields;
    let mut index: u32 = 0;
    while let Some((field, more)) = rest.split_first() {
        if field.name.text.as_slice() == text {
            return Ok(index);
        }
        index = index.checked_add(1).ok_or(AllocError)?;
        rest = more;
    }
    Ok(0)
}

/// The number of a field of an item, where that is a format.
fn index_in(item: Option<&Item>, text: &[char]) -> Result<u32, AllocError>
    ensures { IfOk result (λ it. it ≡ index_from 0 (fields_of_format (option_copied item.entry)) text.now) }
{
    match item {
        Some(Item::Format { fields, .. }) => index_among(fields.as_slice(), text),
        _ => Ok(0),
    }
}

/// A field of the format of a frame.
pub(crate) fn field_id(text: &[char], frame: &Frame) -> Result<FieldId, AllocError>
    ensures { IfOk result (λ it. it ≡ field_by (setting_in frame.now.setting.now.context.now) frame.now.name.now text.now) }
{
    let index = index_in(frame.setting.context.table.item(frame.name), text)?;
    Ok(FieldId {
        format: frame.format,
        index,
    })
}

/// The fields of an item, where it is a format.
pub(crate) fn fields_in(item: Option<&Item>) -> &[Field]
    ensures { result.now ≡ fields_of_item (option_copied item.entry) }
{
    match item {
        Some(Item::Format { fields, .. }) => fields.as_slice(),
        _ => &[],
    }
}

/// The first field of a name.
pub(crate) fn field_named<'a>(fields: &'a [Field], text: &[char]) -> Option<&'a Field>
    ensures { option_copied result ≡ named_in fields.now text.now }
{
    for field in fields {
        if field.name.text.as_slice() == text {
            return Some(field);
        }
    }
    None
}

/// How many bits a field has.
#[tactic(auto, using(crate::proofs::WidthLemmas::typed_width, crate::proofs::WidthLemmas::untyped_width))]
pub(crate) fn width_named(field: Option<&Field>, setting: &Setting) -> u8
    requires { is_width (width_by (setting_in setting.now.context.now) (option_copied field)) ≡ true }
    ensures { result ≡ width_by (setting_in setting.now.context.now) (option_copied field.entry) }
{
    match field {
        None => unreachable!(),
        Some(field) => match field_type(field, setting.context) {
            None => unreachable!(),
            Some(has) => width_of(has),
        },
    }
}
