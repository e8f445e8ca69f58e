ghost use Rattle.std.specs.Prelude.{◌≡◌};
ghost use Rattle.vg_whole.specs.Whole.{inner_of, or_else, whole_of};
ghost use Rattle.vg_inline.specs.Context.{binding_worths, constants_in, declared_in};

use crate::Declared;
use crate::bindings::Bindings;
use crate::context::{Context, alias, constant};
use sqlite_items::Boxed;
use vg_ast::{Expr, TypeExpr};
use vg_whole::{Worth, worth_of_binary};

fn name_worth(text: &[char], bindings: &Bindings, context: &Context) -> Worth
    ensures { result ≡ or_else (inner_of (binding_worths bindings.now) text.now) (constants_in context.now text.now) }
{
    match bindings {
        Bindings::Nothing => constant(context, text),
        Bindings::Let { name, worth, outer } => {
            if name.text.as_slice() == text {
                *worth
            } else {
                name_worth(text, outer, context)
            }
        }
    }
}

/// What an expression in a declared type is worth.
#[tactic(auto, using(vg_whole::proofs::JudgedLemmas::judged_steps))]
pub fn whole(e: &Expr, bindings: &Bindings, context: &Context) -> Worth
    ensures { result ≡ whole_of (constants_in context.now) e.now (binding_worths bindings.now) }
{
    match e {
        Expr::Number { value, .. } => Worth::Whole(*value),
        Expr::Name(name) => name_worth(name.text.as_slice(), bindings, context),
        Expr::Parentheses { inner, .. } => whole(inner.get(), bindings, context),
        Expr::Binary {
            operator,
            left,
            right,
            ..
        } => worth_of_binary(
            *operator,
            whole(left.get(), bindings, context),
            whole(right.get(), bindings, context),
        ),
        Expr::Let {
            name,
            bound,
            body,
            ..
        } => {
            let within = Bindings::Let {
                name,
                worth: whole(bound.get(), bindings, context),
                outer: &*bindings,
            };
            whole(body.get(), &within, context)
        }
        Expr::Call { .. }
        | Expr::Access { .. }
        | Expr::Join { .. }
        | Expr::Unary { .. }
        | Expr::Cast { .. }
        | Expr::Slice { .. }
        | Expr::If { .. } => Worth::Typed,
    }
}

/// A declared type.
pub fn declared_type(declared: &TypeExpr<Boxed<Expr>>, context: &Context) -> Declared
    ensures { result ≡ declared_in context.now declared.now }
{
    match declared {
        TypeExpr::Sized { kind, width, .. } => Declared::Sized {
            kind: *kind,
            width: whole(width.get(), &Bindings::Nothing, context),
        },
        TypeExpr::Bool { .. } => Declared::Bool,
        TypeExpr::Alias(name) => alias(context, name.text.as_slice()),
    }
}
