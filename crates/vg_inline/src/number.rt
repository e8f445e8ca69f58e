ghost use Rattle.std.specs.Prelude.{◌≡◌, []};
ghost use Rattle.vg_whole.specs.Whole.{whole_of};
ghost use Rattle.vg_inline.specs.Context.{constants_in};

use crate::bindings::Bindings;
use crate::context::Context;
use crate::whole::whole;
use vg_ast::Expr;
use vg_whole::Worth;

/// What a number outside of statements is worth, where no inner name is in scope.
pub fn worth_of(e: &Expr, context: &Context) -> Worth
    ensures { result ≡ whole_of (constants_in context.now) e.now [] }
{
    whole(e, &Bindings::Nothing, context)
}
