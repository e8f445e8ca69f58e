//! Constants, and the places at which a whole number takes a type.

ghost use Rattle.std.specs.Prelude.{◌≡◌, IfOk};
ghost use Rattle.vg_type.specs.ValueType.{sort_of_type as sort_of};
ghost use Rattle.vg_tree.specs.Made.{constant as constant_tree, made_of, no_tree as plain_tree, nothing_made, placed as placed_tree, taken as taken_tree, tree_where as tree_of};

use crate::made::Made;
use crate::reading::Reading;
use sqlite_items::{Boxed, Items};
use std::alloc::{AllocError, Global};
use vg_bits::{Bits, Width};
use vg_isa::Expr;
use vg_type::{Sort, ValueType, same_type, sort_of_type, width_of};

/// What stands where an expression has no type.
pub(crate) fn no_tree(alloc: Global) -> Result<Boxed<Expr>, AllocError>
    ensures { IfOk result (λ tree. tree ≡ plain_tree) }
{
    Boxed::new(alloc, Expr::Const(Bits::of(Width::of(128), 0)))
}

/// A number at a width.
#[tactic(auto, unfolding(crate::specs::Made::constant))]
pub(crate) fn constant(alloc: Global, width: u8, number: u128) -> Result<Boxed<Expr>, AllocError>
    ensures { IfOk result (λ tree. tree ≡ constant_tree width number) }
{
    match Width::new(u32::from(width)) {
        None => no_tree(alloc),
        Some(width) => Boxed::new(alloc, Expr::Const(Bits::cut_to(width, number))),
    }
}

/// What stands at a place of this type for a tree of this sort.
fn taken(
    alloc: Global,
    has: ValueType,
    sort: Sort,
    tree: Boxed<Expr>,
) -> Result<Boxed<Expr>, AllocError>
    ensures { IfOk result (λ it. it ≡ taken_tree has sort tree) }
{
    match sort {
        Sort::Whole { value } => constant(alloc, width_of(has), value),
        Sort::Typed { has: other } => {
            if same_type(has, other) {
                Ok(tree)
            } else {
                constant(alloc, width_of(has), 0)
            }
        }
        Sort::NoValue | Sort::Untyped => constant(alloc, width_of(has), 0),
    }
}

/// A tree at a place of a type, which a whole number takes.
pub(crate) fn placed(
    alloc: Global,
    has: Option<ValueType>,
    sort: Sort,
    tree: Boxed<Expr>,
) -> Result<Boxed<Expr>, AllocError>
    ensures { IfOk result (λ it. it ≡ placed_tree has sort tree) }
{
    match has {
        None => Ok(tree),
        Some(has) => taken(alloc, has, sort, tree),
    }
}

/// A tree where there is a type.
fn tree_where(
    alloc: Global,
    has: Option<ValueType>,
    tree: Boxed<Expr>,
) -> Result<Boxed<Expr>, AllocError>
    ensures { IfOk result (λ it. it ≡ tree_of has tree) }
{
    match has {
        None => no_tree(alloc),
        Some(_) => Ok(tree),
    }
}

/// What has a type, if it has one.
pub(crate) fn typed(
    alloc: Global,
    has: Option<ValueType>,
    tree: Boxed<Expr>,
    readings: Items<Reading>,
) -> Result<Made, AllocError>
    ensures { IfOk result (λ it. it ≡ made_of has tree readings) }
{
    Ok(Made {
        sort: sort_of_type(has),
        tree: tree_where(alloc, has, tree)?,
        readings,
    })
}

/// What has no type.
pub(crate) fn nothing(alloc: Global) -> Result<Made, AllocError>
    ensures { IfOk result (λ it. it ≡ nothing_made) }
{
    Ok(Made {
        sort: Sort::Untyped,
        tree: no_tree(alloc)?,
        readings: Items::new(alloc),
    })
}
