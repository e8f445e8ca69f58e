//! Casts of what stands for an expression.

ghost use Rattle.std.specs.Prelude.{◌≡◌, IfOk, Some};
ghost use Rattle.vg_type.specs.ValueType.{type_of as type_declared, width_of as width_of_type};
ghost use Rattle.vg_tree.specs.Made.{cast_made, cast_operator as operator_of_cast, cast_tree as tree_of_cast, extension as extension_of};

use crate::constants::{constant, typed};
use crate::made::Made;
use crate::operators::is_signed;
use sqlite_items::Boxed;
use std::alloc::{AllocError, Global};
use vg_bits::Width;
use vg_inline::Declared;
use vg_isa::{CastOp, Expr};
use vg_type::{Sort, ValueType, cast_type, type_of, width_of};

fn extension(is_signed: bool) -> CastOp
    ensures { result ≡ extension_of is_signed }
{
    if is_signed {
        CastOp::SignExtend
    } else {
        CastOp::Extend
    }
}

/// The cast of a type to a width.
fn cast_operator(from: ValueType, width: u8) -> CastOp
    ensures { result ≡ operator_of_cast from width }
{
    if width_of(from) == width {
        CastOp::Keep
    } else if width < width_of(from) {
        CastOp::Cut
    } else {
        extension(is_signed(Some(from)))
    }
}

/// The width of a declared type.
#[tactic(auto, using(crate::proofs::MadeLemmas::declared_width))]
fn width_declared(target: Declared, has: ValueType) -> Width
    requires { type_declared target ≡ Some has }
    ensures { result ≡ width_of_type has }
{
    Width::of(width_of(has))
}

fn cast_tree(
    alloc: Global,
    target: Declared,
    from: Sort,
    tree: Boxed<Expr>,
) -> Result<Boxed<Expr>, AllocError>
    ensures { IfOk result (λ it. it ≡ tree_of_cast (type_declared target) from tree) }
{
    match (type_of(target), from) {
        (Some(has), Sort::Whole { value }) => constant(alloc, width_of(has), value),
        (Some(has), Sort::Typed { has: from }) => {
            let operator = cast_operator(from, width_of(has));
            Boxed::new(
                alloc,
                Expr::Cast(operator, width_declared(target, has), tree),
            )
        }
        (Some(has), Sort::NoValue | Sort::Untyped) => constant(alloc, width_of(has), 0),
        (None, _) => Ok(tree),
    }
}

pub(crate) fn cast(alloc: Global, target: Declared, a: Made) -> Result<Made, AllocError>
    ensures { IfOk result (λ it. it ≡ cast_made target a) }
{
    let has = cast_type(type_of(target), a.sort);
    let tree = cast_tree(alloc, target, a.sort, a.tree)?;
    typed(alloc, has, tree, a.readings)
}
