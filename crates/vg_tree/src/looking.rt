//! What is found in a frame.

ghost use Rattle.std.specs.Prelude.{◌≡◌};
ghost use Rattle.vg_tree.specs.Resource.{resource_at as resource_at_number};
ghost use Rattle.vg_type.specs.Setting.{setting_in};
ghost use Rattle.vg_tree.specs.Frame.{frame_in};
ghost use Rattle.vg_tree.specs.Made.{address_in as address_of, field_sort_at};

use crate::frame::Frame;
use crate::resource::Resource;
use vg_isa::RegId;
use vg_type::{Sort, ValueType, address_type};

/// What the item of a number is.
#[tactic(auto, using(crate::proofs::ResourceLemmas::found_resource, crate::proofs::ResourceLemmas::missed_resource))]
pub(crate) fn resource_at(frame: &Frame, item: usize) -> Resource
    ensures { result ≡ resource_at_number (setting_in frame.now.setting.now.context.now) item }
{
    match frame.resources.get(item) {
        Some(resource) => *resource,
        None => Resource {
            id: RegId(0),
            is_counter: false,
            single: None,
            index: None,
            gives: None,
        },
    }
}

/// What a field of the format is.
#[tactic(auto, using(crate::proofs::ResourceLemmas::found_sort))]
pub(crate) fn field_sort(frame: &Frame, field: usize) -> Sort
    ensures { result ≡ field_sort_at (frame_in frame.now) field }
{
    match frame.fields.get(field) {
        Some(sort) => *sort,
        None => Sort::Untyped,
    }
}

/// The type of addresses.
pub(crate) fn address(frame: &Frame) -> Option<ValueType>
    ensures { result ≡ address_of (setting_in frame.now.setting.now.context.now) }
{
    address_type(frame.setting.width)
}
