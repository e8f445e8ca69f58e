//! Copies of trees.

ghost use Rattle.std.specs.Prelude.{◌≡◌, IfOk};
ghost use Rattle.vg_isa.specs.declared.expr.Expr.TheVariants.{Reg as reg_node};

use sqlite_items::Boxed;
use std::alloc::{AllocError, Global};
use vg_isa::{Expr, RegId};

/// A register, over a copy of its index.
#[cycle(copy)]
fn copy_register(
    alloc: Global,
    register: RegId,
    index: &Option<Boxed<Expr>>,
) -> Result<Boxed<Expr>, AllocError>
    ensures { IfOk result (λ it. it ≡ reg_node register index.now) }
{
    match index {
        None => Boxed::new(alloc, Expr::Reg(register, None)),
        Some(index) => {
            let index = copy(alloc, index.get())?;
            Boxed::new(alloc, Expr::Reg(register, Some(index)))
        }
    }
}

/// A copy of a tree.
#[cycle(copy)]
pub(crate) fn copy(alloc: Global, tree: &Expr) -> Result<Boxed<Expr>, AllocError>
    ensures { IfOk result (λ it. it ≡ tree.now) }
{
    match tree {
        Expr::Const(bits) => Boxed::new(alloc, Expr::Const(*bits)),
        Expr::Field(field) => Boxed::new(alloc, Expr::Field(*field)),
        Expr::Pc => Boxed::new(alloc, Expr::Pc),
        Expr::Reg(register, index) => copy_register(alloc, *register, index),
        Expr::Mem(address, bytes) => {
            let address = copy(alloc, address.get())?;
            Boxed::new(alloc, Expr::Mem(address, *bytes))
        }
        Expr::Unary(operator, a) => {
            let a = copy(alloc, a.get())?;
            Boxed::new(alloc, Expr::Unary(*operator, a))
        }
        Expr::Binary(operator, a, b) => {
            let a = copy(alloc, a.get())?;
            let b = copy(alloc, b.get())?;
            Boxed::new(alloc, Expr::Binary(*operator, a, b))
        }
        Expr::Cast(operator, width, a) => {
            let a = copy(alloc, a.get())?;
            Boxed::new(alloc, Expr::Cast(*operator, *width, a))
        }
        Expr::Slice(a, high, low) => {
            let a = copy(alloc, a.get())?;
            Boxed::new(alloc, Expr::Slice(a, *high, *low))
        }
        Expr::Join(a, b) => {
            let a = copy(alloc, a.get())?;
            let b = copy(alloc, b.get())?;
            Boxed::new(alloc, Expr::Join(a, b))
        }
        Expr::If(c, a, b) => {
            let c = copy(alloc, c.get())?;
            let a = copy(alloc, a.get())?;
            let b = copy(alloc, b.get())?;
            Boxed::new(alloc, Expr::If(c, a, b))
        }
    }
}
