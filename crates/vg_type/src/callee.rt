//! What names call.

ghost use Rattle.std.specs.Prelude.{◌≡◌};
ghost use Rattle.std.specs.Option.{option_copied};
ghost use Rattle.vg_inline.specs.declared.context.Context.{Context as ContextOf};
ghost use Rattle.vg_whole.specs.Whole.{inner_of};
ghost use Rattle.vg_type.specs.Expression.{called};
ghost use Rattle.vg_type.specs.Scope.{signature_of};
ghost use Rattle.vg_type.specs.Setting.{globals_in, scope_in, sorts_of};
ghost use Rattle.vg_type.specs.Calls.{signature_in};

use crate::ValueType;
use crate::declaring::type_in;
use crate::finding::find;
use crate::names::Names;
use sqlite_items::Boxed;
use vg_ast::{Expr, Item, Parameter, TypeExpr};
use vg_inline::Context;

/// What a name calls.
#[derive(Clone, Copy)]
pub enum Callee<'a> {
    Nothing,
    Function {
        parameters: &'a [Parameter],
        gives: &'a TypeExpr<Boxed<Expr>>,
    },
    /// A register file, over an index.
    File {
        index: &'a TypeExpr<Boxed<Expr>>,
        gives: &'a TypeExpr<Boxed<Expr>>,
    },
}

fn callee_of<'a>(item: Option<&'a Item>) -> Callee<'a>
    ensures { (x : ContextOf) → signature_in x result ≡ signature_of (globals_in x) (option_copied item.entry) }
{
    match item {
        Some(
            Item::Function {
                parameters,
                result,
                ..
            },
        ) => Callee::Function {
            parameters: parameters.as_slice(),
            gives: result,
        },
        Some(
            Item::RegisterFile {
                index,
                declared,
                ..
            },
        ) => Callee::File {
            index,
            gives: declared,
        },
        _ => Callee::Nothing,
    }
}

/// What is called by a name, where no inner name hides it.
pub fn callee_named<'a>(text: &[char], context: &Context<'a>) -> Callee<'a>
    ensures { signature_in context.now result ≡ (scope_in context.now).callee text.now }
{
    callee_of(context.table.item(text))
}

/// What is called by a name.
pub fn called_by<'a>(text: &[char], names: &Names, context: &Context<'a>) -> Callee<'a>
    ensures { signature_in context.now result ≡ called (inner_of (sorts_of context.now names.now) text.now) ((scope_in context.now).callee text.now) }
{
    match find(text, names, context) {
        Some(_) => Callee::Nothing,
        None => callee_named(text, context),
    }
}
