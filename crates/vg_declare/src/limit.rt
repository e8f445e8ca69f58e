//! What there is too much of, beside the nodes of behaviours.

ghost use Rattle.std.specs.Prelude.{◌≡◌, ◌+◌, nat_le, Some, None, IfSome, if◌then◌else◌};
ghost use Rattle.vg_names.specs.First.{first_of};
ghost use Rattle.vg_type.specs.Scope.{width_in as width_declared};
ghost use Rattle.vg_type.specs.Setting.{setting_in};
ghost use Rattle.vg_type.specs.Scope.{declared_in};
ghost use Rattle.vg_declare.specs.Limit.{AreWithin, beyond_limits, counted, excesses_behind, is_excess, is_long_index as is_long, name_place as place_of_name, none_yet};

use crate::counts::Counts;
use sqlite_items::Boxed;
use vg_ast::{Expr, Item, TypeExpr};
use vg_inline::declared_type;
use vg_type::{Setting, width_in};

/// The most instructions of a description.
const MOST_INSTRUCTIONS: usize = 512;

/// The most formats.
const MOST_FORMATS: usize = 64;

/// The most of memory, registers and register files together.
const MOST_RESOURCES: usize = 16;

/// The most bits of an index of a register file.
const WIDEST_INDEX: u128 = 6;

/// The place of the name of an item, or of the instruction that it is for.
fn name_place(item: &Item) -> usize
    ensures { result ≡ place_of_name item.now }
{
    match item {
        Item::Constant { name, .. }
        | Item::Using { name, .. }
        | Item::Function { name, .. }
        | Item::ProgramCounter { name, .. }
        | Item::Memory { name, .. }
        | Item::Register { name, .. }
        | Item::RegisterFile { name, .. }
        | Item::Format { name, .. }
        | Item::Instruction { name, .. }
        | Item::Encoding { name, .. }
        | Item::Assembly { name, .. } => name.at,
    }
}

/// Whether an index has too many bits.
fn is_long_index(index: &TypeExpr<Boxed<Expr>>, setting: &Setting) -> bool
    ensures { result ≡ is_long (width_declared (declared_in (setting_in setting.now.context.now).globals index.now)) }
{
    match width_in(declared_type(index, setting.context)) {
        None => false,
        Some(width) => width > WIDEST_INDEX,
    }
}

fn with_instruction(counts: Counts) -> Option<Counts>
    requires { AreWithin counts }
    ensures counts { result ≡ if nat_le 512 counts.instructions then None else Some (record { instructions = counts.instructions + 1; formats = counts.formats; resources = counts.resources }) }
    ensures within { IfSome result AreWithin }
{
    if counts.instructions >= MOST_INSTRUCTIONS {
        return None;
    }
    Some(Counts {
        instructions: counts.instructions + 1,
        ..counts
    })
}

fn with_format(counts: Counts) -> Option<Counts>
    requires { AreWithin counts }
    ensures counts { result ≡ if nat_le 64 counts.formats then None else Some (record { instructions = counts.instructions; formats = counts.formats + 1; resources = counts.resources }) }
    ensures within { IfSome result AreWithin }
{
    if counts.formats >= MOST_FORMATS {
        return None;
    }
    Some(Counts {
        formats: counts.formats + 1,
        ..counts
    })
}

fn with_resource(counts: Counts) -> Option<Counts>
    requires { AreWithin counts }
    ensures counts { result ≡ if nat_le 16 counts.resources then None else Some (record { instructions = counts.instructions; formats = counts.formats; resources = counts.resources + 1 }) }
    ensures within { IfSome result AreWithin }
{
    if counts.resources >= MOST_RESOURCES {
        return None;
    }
    Some(Counts {
        resources: counts.resources + 1,
        ..counts
    })
}

/// The counts with an item behind those, or none where it is one too many or has too wide an index.
fn with_item(counts: Counts, item: &Item, setting: &Setting) -> Option<Counts>
    requires { AreWithin counts }
    ensures counts { result ≡ if is_excess (setting_in setting.now.context.now) counts item.now then None else Some (counted counts item.now) }
    ensures within { IfSome result AreWithin }
{
    match item {
        Item::Instruction { .. } => with_instruction(counts),
        Item::Format { .. } => with_format(counts),
        Item::Memory { .. } | Item::Register { .. } => with_resource(counts),
        Item::RegisterFile { index, .. } => {
            if is_long_index(index, setting) {
                return None;
            }
            with_resource(counts)
        }
        _ => Some(counts),
    }
}

/// The place of the name of the first item too many of a description, or of the first register file with too wide an
/// index.
pub fn first_beyond(setting: &Setting) -> Option<usize>
    ensures { result ≡ first_of (beyond_limits (setting_in setting.now.context.now)) }
{
    let mut counts = Counts {
        instructions: 0,
        formats: 0,
        resources: 0,
    };
    for item in setting.context.table.items {
        match with_item(counts, item, setting) {
            None => return Some(name_place(item)),
            Some(next) => counts = next,
        }
    }
    None
}
