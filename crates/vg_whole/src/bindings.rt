#![tactic(auto, using(crate::proofs::BindingLemmas::binding_steps))]

ghost use Rattle.std.specs.Prelude.{◌≡◌};
ghost use Rattle.vg_whole.specs.Whole.{inner_of, or_else};
ghost use Rattle.vg_whole.specs.Bindings.{inner_worths};
ghost use Rattle.vg_whole.specs.Worths.{constants_by, worth_at};

use crate::Worth;
use vg_ast::Name;
use vg_names::{Inner, Table, is_inner};

/// The inner names at a place, with what they are worth.
#[derive(Clone, Copy)]
pub enum Bindings<'a> {
    /// Fields or parameters, which have types, or no names.
    Typed(Inner<'a>),
    /// The name of a `let`, before the names outside of it.
    Let {
        name: &'a Name,
        worth: Worth,
        outer: &'a Bindings<'a>,
    },
}

/// What the item of a number is worth.
fn worth_of_item(worths: &[Worth], number: Option<usize>) -> Worth
    ensures { result ≡ worth_at worths.now number }
{
    match number {
        None => Worth::Typed,
        Some(number) => worths.get(number).copied().unwrap_or(Worth::Typed),
    }
}

/// What the name of an item is worth.
fn worth_of_global(text: &[char], table: &Table, worths: &[Worth]) -> Worth
    ensures { result ≡ constants_by table.now.items.now worths.now text.now }
{
    worth_of_item(worths, table.number(text))
}

/// What a name is worth.
pub fn worth_of(bindings: &Bindings, text: &[char], table: &Table, worths: &[Worth]) -> Worth
    ensures { result ≡ or_else (inner_of (inner_worths table.now.items.now bindings.now) text.now) (constants_by table.now.items.now worths.now text.now) }
{
    match bindings {
        Bindings::Typed(inner) => {
            if is_inner(inner, table, text) {
                Worth::Typed
            } else {
                worth_of_global(text, table, worths)
            }
        }
        Bindings::Let { name, worth, outer } => {
            if name.text.as_slice() == text {
                *worth
            } else {
                worth_of(outer, text, table, worths)
            }
        }
    }
}
