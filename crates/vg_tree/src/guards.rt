//! Guards: the conditions of the paths that write a resource.

ghost use Rattle.std.specs.Prelude.{◌≡◌, IfOk};
ghost use Rattle.vg_tree.specs.Written.{always as always_tree, either_guard as guard_of_both, guarded as guarded_tree, is_always as is_always_tree};

use crate::copying::copy;
use sqlite_items::Boxed;
use std::alloc::{AllocError, Global};
use vg_bits::{Bits, Width};
use vg_isa::{BinOp, Expr};

/// The constant true.
pub(crate) fn always(alloc: Global) -> Result<Boxed<Expr>, AllocError>
    ensures { IfOk result (λ tree. tree ≡ always_tree) }
{
    Boxed::new(alloc, Expr::Const(Bits::of(Width::of(1), 1)))
}

/// Whether a guard is the constant true.
pub(crate) fn is_always(guard: &Expr) -> bool
    ensures { result ≡ is_always_tree guard.now }
{
    match guard {
        Expr::Const(bits) => bits.width().bits() == 1 && bits.value() == 1,
        _ => false,
    }
}

/// A condition, and the guard behind it.
pub(crate) fn guarded(
    alloc: Global,
    condition: Boxed<Expr>,
    guard: Boxed<Expr>,
) -> Result<Boxed<Expr>, AllocError>
    ensures { IfOk result (λ tree. tree ≡ guarded_tree condition guard) }
{
    if is_always(guard.get()) {
        Ok(condition)
    } else {
        Boxed::new(alloc, Expr::Binary(BinOp::And, condition, guard))
    }
}

/// The guard of a write on both sides of a condition.
pub(crate) fn either_guard(
    alloc: Global,
    condition: &Expr,
    one: Boxed<Expr>,
    other: Boxed<Expr>,
) -> Result<Boxed<Expr>, AllocError>
    ensures { IfOk result (λ tree. tree ≡ guard_of_both condition.now one other) }
{
    if is_always(one.get()) && is_always(other.get()) {
        always(alloc)
    } else {
        let condition = copy(alloc, condition)?;
        Boxed::new(alloc, Expr::If(condition, one, other))
    }
}
