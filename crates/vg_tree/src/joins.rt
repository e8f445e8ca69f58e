//! Slices, joins and conditionals of what stands for expressions.

ghost use Rattle.std.specs.Prelude.{◌≡◌, IfOk};
ghost use Rattle.vg_type.specs.Operator.{slice_type as type_of_slice};
ghost use Rattle.vg_type.specs.ValueType.{whole_or as whole_or_of};
ghost use Rattle.vg_type.specs.declared.sort.Sort.TheVariants as sorts;
ghost use Rattle.vg_isa.specs.declared.expr.Expr.TheVariants as exprs;
ghost use Rattle.vg_tree.specs.Number.{value_or};
ghost use Rattle.vg_tree.specs.Made.{choice_tree as tree_of_choice, if_made, join_made, slice_made, tree_where};

use crate::constants::{no_tree, placed, typed};
use crate::made::Made;
use sqlite_items::Boxed;
use std::alloc::{AllocError, Global};
use vg_isa::Expr;
use vg_type::{Sort, ValueType, choice_type, common_type, join_type, slice_type, whole_or};
use vg_whole::Worth;

/// The type of a slice of what is a sort.
fn type_of(sort: Sort, high: Worth, low: Worth) -> Option<ValueType>
    ensures { result ≡ type_of_slice sort (whole_or_of high sorts.Untyped) (whole_or_of low sorts.Untyped) }
{
    slice_type(
        sort,
        whole_or(high, Sort::Untyped),
        whole_or(low, Sort::Untyped),
    )
}

/// A slice, where it has a type.
#[tactic(auto, using(crate::proofs::MadeLemmas::slice_within))]
fn slice_tree(
    alloc: Global,
    sort: Sort,
    high: Worth,
    low: Worth,
    tree: Boxed<Expr>,
) -> Result<Boxed<Expr>, AllocError>
    ensures { IfOk result (λ it. tree_where (type_of_slice sort (whole_or_of high sorts.Untyped) (whole_or_of low sorts.Untyped)) it ≡ tree_where (type_of_slice sort (whole_or_of high sorts.Untyped) (whole_or_of low sorts.Untyped)) (exprs.Slice tree (value_or high) (value_or low))) }
{
    match (sort, high, low) {
        (
            Sort::Typed {
                has: ValueType::Sized { width, .. },
            },
            Worth::Whole(high),
            Worth::Whole(low),
        ) => {
            if high < width as u128 && low <= high {
                Boxed::new(alloc, Expr::Slice(tree, high as u8, low as u8))
            } else {
                no_tree(alloc)
            }
        }
        _ => no_tree(alloc),
    }
}

pub(crate) fn slice(alloc: Global, high: Worth, low: Worth, a: Made) -> Result<Made, AllocError>
    ensures { IfOk result (λ it. it ≡ slice_made high low a) }
{
    let has = type_of(a.sort, high, low);
    let tree = slice_tree(alloc, a.sort, high, low, a.tree)?;
    typed(alloc, has, tree, a.readings)
}

pub(crate) fn join(alloc: Global, a: Made, b: Made) -> Result<Made, AllocError>
    ensures { IfOk result (λ it. it ≡ join_made a b) }
{
    let has = join_type(a.sort, b.sort);
    let tree = Boxed::new(alloc, Expr::Join(a.tree, b.tree))?;
    let mut readings = a.readings;
    readings.append(b.readings)?;
    typed(alloc, has, tree, readings)
}

fn choice_tree(
    alloc: Global,
    a_sort: Sort,
    b_sort: Sort,
    c: Boxed<Expr>,
    a: Boxed<Expr>,
    b: Boxed<Expr>,
) -> Result<Boxed<Expr>, AllocError>
    ensures { IfOk result (λ tree. tree ≡ tree_of_choice a_sort b_sort c a b) }
{
    let takes = common_type(a_sort, b_sort);
    let one = placed(alloc, takes, a_sort, a)?;
    let other = placed(alloc, takes, b_sort, b)?;
    Boxed::new(alloc, Expr::If(c, one, other))
}

pub(crate) fn choice(alloc: Global, c: Made, a: Made, b: Made) -> Result<Made, AllocError>
    ensures { IfOk result (λ it. it ≡ if_made c a b) }
{
    let has = choice_type(c.sort, a.sort, b.sort);
    let tree = choice_tree(alloc, a.sort, b.sort, c.tree, a.tree, b.tree)?;
    let mut readings = c.readings;
    readings.append(a.readings)?;
    readings.append(b.readings)?;
    typed(alloc, has, tree, readings)
}
