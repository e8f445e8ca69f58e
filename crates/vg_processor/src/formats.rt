//! Formats with their fields and ranges.

ghost use Rattle.std.specs.Prelude.{◌≡◌, true, map, IfOk};
ghost use Rattle.std.specs.List.{filter_map, list_all};
ghost use Rattle.vg_type.specs.Setting.{setting_in};
ghost use Rattle.vg_declare.specs.FieldCover.{ends_of as ends_written};
ghost use Rattle.vg_processor.specs.IsaOf.{field_decl, format_decl};
ghost use Rattle.vg_processor.specs.Held.{holds_field, holds_format_of, holds_range};

use crate::lists::push_some;
use crate::narrow::byte_of;
use crate::text::text_of;
use sqlite_items::Items;
use std::alloc::{AllocError, Global};
use vg_ast::{Field, Item, Range};
use vg_inline::worth_of;
use vg_isa::{FieldDecl, Format};
use vg_tree::value_or;
use vg_type::{Setting, low_of};

/// The high and the low bit of a range.
fn ends_of(range: &Range, setting: &Setting) -> (u8, u8)
    requires { holds_range (setting_in setting.now.context.now) range.now ≡ true }
    ensures { result ≡ ends_written (setting_in setting.now.context.now).globals.constants range.now }
{
    let high = worth_of(range.high.get(), setting.context);
    let low = low_of(high, &range.low, setting.context);
    (byte_of(value_or(high)), byte_of(value_or(low)))
}

fn ranges_of(
    alloc: Global,
    ranges: &[Range],
    setting: &Setting,
) -> Result<Items<(u8, u8)>, AllocError>
    requires { list_all (holds_range (setting_in setting.now.context.now)) ranges.now ≡ true }
    ensures { IfOk result (λ it. it ≡ map (ends_written (setting_in setting.now.context.now).globals.constants) ranges.now) }
{
    let mut ends = Items::new(alloc);
    for range in ranges {
        ends.push(ends_of(range, setting))?;
    }
    Ok(ends)
}

fn field_of(alloc: Global, field: &Field, setting: &Setting) -> Result<FieldDecl, AllocError>
    requires { holds_field (setting_in setting.now.context.now) field.now ≡ true }
    ensures { IfOk result (λ it. it ≡ field_decl (setting_in setting.now.context.now) field.now) }
{
    let name = text_of(alloc, field.name.text.as_slice())?;
    let ranges = ranges_of(alloc, field.ranges.as_slice(), setting)?;
    Ok(FieldDecl { name, ranges })
}

fn fields_of(
    alloc: Global,
    fields: &[Field],
    setting: &Setting,
) -> Result<Items<FieldDecl>, AllocError>
    requires { list_all (holds_field (setting_in setting.now.context.now)) fields.now ≡ true }
    ensures { IfOk result (λ it. it ≡ map (field_decl (setting_in setting.now.context.now)) fields.now) }
{
    let mut decls = Items::new(alloc);
    for field in fields {
        decls.push(field_of(alloc, field, setting)?)?;
    }
    Ok(decls)
}

/// The format that an item declares.
fn format_of(alloc: Global, item: &Item, setting: &Setting) -> Result<Option<Format>, AllocError>
    requires { holds_format_of (setting_in setting.now.context.now) item.now ≡ true }
    ensures { IfOk result (λ it. it ≡ format_decl (setting_in setting.now.context.now) item.now) }
{
    match item {
        Item::Format { name, fields, .. } => {
            let name = text_of(alloc, name.text.as_slice())?;
            let fields = fields_of(alloc, fields.as_slice(), setting)?;
            Ok(Some(Format { name, fields }))
        }
        _ => Ok(None),
    }
}

/// The formats of items.
#[tactic(auto, using(crate::proofs::LoopLemmas::given_more))]
pub fn formats_of(
    alloc: Global,
    items: &[Item],
    setting: &Setting,
) -> Result<Items<Format>, AllocError>
    requires { list_all (holds_format_of (setting_in setting.now.context.now)) items.now ≡ true }
    ensures { IfOk result (λ it. it ≡ filter_map (format_decl (setting_in setting.now.context.now)) items.now) }
{
    let mut formats = Items::new(alloc);
    for item in items {
        let format = format_of(alloc, item, setting)?;
        push_some(&mut formats, format)?;
    }
    Ok(formats)
}
