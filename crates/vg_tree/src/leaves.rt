//! What stands for expressions without parts.

ghost use Rattle.std.specs.Prelude.{◌≡◌, IfOk};
ghost use Rattle.vg_type.specs.ValueType.{type_of as type_declared};
ghost use Rattle.vg_tree.specs.Frame.{frame_in};
ghost use Rattle.vg_tree.specs.Made.{constant_made, field_made, leaf_made, resource_made, resource_tree as tree_of_resource, whole_made, worth_given};

use crate::constants::{constant, nothing, typed};
use crate::frame::Frame;
use crate::looking::{field_sort, resource_at};
use crate::made::Made;
use crate::operators::typed_sort;
use crate::resource::Resource;
use sqlite_items::{Boxed, Items};
use std::alloc::{AllocError, Global};
use vg_inline::{Declared, Head};
use vg_isa::{Expr, FieldId};
use vg_type::{Sort, type_of, width_of};

fn whole(alloc: Global, value: Option<u128>) -> Result<Made, AllocError>
    ensures { IfOk result (λ it. it ≡ whole_made (worth_given value)) }
{
    match value {
        None => Ok(Made {
            sort: Sort::NoValue,
            tree: constant(alloc, 128, 0)?,
            readings: Items::new(alloc),
        }),
        Some(value) => Ok(Made {
            sort: Sort::Whole { value },
            tree: constant(alloc, 128, value)?,
            readings: Items::new(alloc),
        }),
    }
}

/// A whole number that took a declared type.
fn declared(alloc: Global, value: Option<u128>, declared: Declared) -> Result<Made, AllocError>
    ensures { IfOk result (λ it. it ≡ constant_made (worth_given value) (type_declared declared)) }
{
    match type_of(declared) {
        None => nothing(alloc),
        Some(has) => {
            let tree = constant(alloc, width_of(has), value.unwrap_or(0))?;
            typed(alloc, Some(has), tree, Items::new(alloc))
        }
    }
}

fn field(alloc: Global, field: usize, frame: &Frame) -> Result<Made, AllocError>
    ensures { IfOk result (λ it. it ≡ field_made (frame_in frame.now) field) }
{
    let has = typed_sort(field_sort(frame, field));
    let Ok(index) = u32::try_from(field) else {
        return Err(AllocError);
    };
    let id = FieldId {
        format: frame.format,
        index,
    };
    typed(
        alloc,
        has,
        Boxed::new(alloc, Expr::Field(id))?,
        Items::new(alloc),
    )
}

fn resource_tree(alloc: Global, resource: Resource) -> Result<Boxed<Expr>, AllocError>
    ensures { IfOk result (λ tree. tree ≡ tree_of_resource resource) }
{
    if resource.is_counter {
        Boxed::new(alloc, Expr::Pc)
    } else {
        Boxed::new(alloc, Expr::Reg(resource.id, None))
    }
}

fn resource(alloc: Global, resource: Resource) -> Result<Made, AllocError>
    ensures { IfOk result (λ it. it ≡ resource_made resource) }
{
    let tree = resource_tree(alloc, resource)?;
    typed(alloc, resource.single, tree, Items::new(alloc))
}

/// A node without parts.
pub(crate) fn leaf(alloc: Global, head: Head, frame: &Frame) -> Result<Made, AllocError>
    ensures { IfOk result (λ it. it ≡ leaf_made (frame_in frame.now) head) }
{
    match head {
        Head::Whole { value } => whole(alloc, value),
        Head::Constant {
            value,
            declared: has,
        } => declared(alloc, value, has),
        Head::Field { field: number } => field(alloc, number, frame),
        Head::Resource { item } => resource(alloc, resource_at(frame, item)),
        _ => nothing(alloc),
    }
}
