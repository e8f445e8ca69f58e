ghost use Rattle.std.specs.Prelude.{◌≡◌};
ghost use Rattle.std.proofs.Props.{props};
ghost use Rattle.vg_inline.specs.Context.{items_of};
ghost use Rattle.vg_tree.specs.Resource.{memory_number, resources_of};
ghost use Rattle.vg_type.specs.Setting.{setting_in};
ghost use Rattle.vg_tree.specs.Fields.{format_given, sorts_given};

use crate::resource::Resource;
use vg_isa::FormatId;
use vg_type::{Setting, Sort};

/// The items, and the format of an instruction, with what its fields are.
pub struct Frame<'a> {
    pub setting: &'a Setting<'a>,
    /// Of each item of the setting, by its number.
    pub resources: &'a [Resource],
    /// The number of the memory.
    pub memory: usize,
    /// The name of the format.
    pub name: &'a [char],
    pub format: FormatId,
    /// Of each field of the format.
    pub fields: &'a [Sort],
    ghost worked: { resources.now ≡ resources_of (setting_in setting.now.context.now) } by { Prim.hlevel props },
    ghost found: { memory ≡ memory_number (items_of setting.now.context.now) } by { Prim.hlevel props },
    ghost placed: { format.0 ≡ format_given (setting_in setting.now.context.now) name.now } by { Prim.hlevel props },
    ghost typed: { fields.now ≡ sorts_given (setting_in setting.now.context.now) name.now } by { Prim.hlevel props },
}
