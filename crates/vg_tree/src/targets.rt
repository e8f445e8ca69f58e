//! What assignments write.

ghost use Rattle.std.specs.Prelude.{◌≡◌};
ghost use Rattle.vg_type.specs.Setting.{setting_in};
ghost use Rattle.vg_tree.specs.Written.{part_place as place_of_part, part_type as type_of_part, target_number as number_of_target, target_type as type_of_target};

use crate::frame::Frame;
use crate::looking::{address, resource_at};
use vg_inline::Target;
use vg_type::{Sort, ValueType, bytes_type, whole_or};

/// The number of the item that is written.
pub(crate) fn target_number(target: Target, frame: &Frame) -> usize
    ensures { result ≡ number_of_target (setting_in frame.now.setting.now.context.now) target }
{
    match target {
        Target::Resource { item, .. } | Target::Indexed { item, .. } => item,
        Target::Access { .. } => frame.memory,
    }
}

/// The place of its index or address.
pub(crate) fn part_place(target: Target) -> Option<usize>
    ensures { result ≡ place_of_part target }
{
    match target {
        Target::Resource { .. } => None,
        Target::Indexed { index_at, .. } => Some(index_at),
        Target::Access { address_at, .. } => Some(address_at),
    }
}

/// The type of its index or address.
pub(crate) fn part_type(target: Target, frame: &Frame) -> Option<ValueType>
    ensures { result ≡ type_of_part (setting_in frame.now.setting.now.context.now) target }
{
    match target {
        Target::Resource { .. } => None,
        Target::Indexed { item, .. } => resource_at(frame, item).index,
        Target::Access { .. } => address(frame),
    }
}

/// The type of what is written.
pub(crate) fn target_type(target: Target, frame: &Frame) -> Option<ValueType>
    ensures { result ≡ type_of_target (setting_in frame.now.setting.now.context.now) target }
{
    match target {
        Target::Resource { item, .. } => resource_at(frame, item).single,
        Target::Indexed { item, .. } => resource_at(frame, item).gives,
        Target::Access { size, .. } => bytes_type(whole_or(size, Sort::Untyped)),
    }
}
