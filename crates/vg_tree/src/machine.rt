ghost use Rattle.std.specs.Prelude.{◌≡◌};
ghost use Rattle.std.proofs.Props.{props};
ghost use Rattle.vg_inline.specs.Context.{items_of};
ghost use Rattle.vg_tree.specs.Resource.{formats_of, memory_number, resources_of};
ghost use Rattle.vg_type.specs.Setting.{setting_in};

use crate::resource::Resource;
use sqlite_items::Items;
use vg_isa::FormatId;
use vg_type::Setting;

/// The items of a setting, as a processor numbers them.
pub struct Machine<'a> {
    pub setting: &'a Setting<'a>,
    /// Of each item, by its number.
    pub resources: Items<Resource>,
    /// How many formats stand before each item.
    pub formats: Items<FormatId>,
    /// The number of the memory.
    pub memory: usize,
    ghost worked: { resources ≡ resources_of (setting_in setting.now.context.now) } by { Prim.hlevel props },
    ghost counted: { formats ≡ formats_of (items_of setting.now.context.now) } by { Prim.hlevel props },
    ghost found: { memory ≡ memory_number (items_of setting.now.context.now) } by { Prim.hlevel props },
}
