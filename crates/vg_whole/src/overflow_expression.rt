ghost use Rattle.std.specs.Prelude.{◌≡◌, []};
ghost use Rattle.vg_names.specs.First.{first_of};
ghost use Rattle.vg_whole.specs.Overflow.{expression_overflows, type_overflows, optional_overflows};
ghost use Rattle.vg_whole.specs.Bindings.{inner_worths};
ghost use Rattle.vg_whole.specs.Worths.{constants_by};

use crate::Worth;
use crate::bindings::Bindings;
use crate::judging::judged;
use sqlite_items::Boxed;
use vg_ast::{Expr, TypeExpr};
use vg_names::{Inner, Table};

/// The first operator of an expression that leaves the whole numbers.
pub fn expression(e: &Expr, bindings: &Bindings, table: &Table, worths: &[Worth]) -> Option<usize>
    ensures { result ≡ first_of (expression_overflows (constants_by table.now.items.now worths.now) e.now (inner_worths table.now.items.now bindings.now)) }
{
    judged(e, bindings, table, worths).place
}

/// The first operator of an expression outside of all scopes.
pub fn global(e: &Expr, table: &Table, worths: &[Worth]) -> Option<usize>
    ensures { result ≡ first_of (expression_overflows (constants_by table.now.items.now worths.now) e.now []) }
{
    expression(e, &Bindings::Typed(Inner::Nothing), table, worths)
}

/// The first operator of a type.
pub fn type_of(written: &TypeExpr<Boxed<Expr>>, table: &Table, worths: &[Worth]) -> Option<usize>
    ensures { result ≡ first_of (type_overflows (constants_by table.now.items.now worths.now) written.now []) }
{
    match written {
        TypeExpr::Sized { width, .. } => global(width.get(), table, worths),
        TypeExpr::Bool { .. } | TypeExpr::Alias(_) => None,
    }
}

/// The first operator of an expression that may be left out.
pub fn optional(e: &Option<Boxed<Expr>>, table: &Table, worths: &[Worth]) -> Option<usize>
    ensures { result ≡ first_of (optional_overflows (constants_by table.now.items.now worths.now) e.now) }
{
    match e {
        None => None,
        Some(e) => global(e.get(), table, worths),
    }
}
