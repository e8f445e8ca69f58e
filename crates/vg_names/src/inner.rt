ghost use Rattle.std.specs.Prelude.{◌≡◌};
ghost use Rattle.vg_names.specs.Definition.{is_among};
ghost use Rattle.vg_names.specs.Inner.{inner_names};

use crate::Scope;
use crate::table::Table;
use vg_ast::Name;

/// The inner names at a place, which hide those of items.
#[derive(Clone, Copy)]
pub enum Inner<'a> {
    Nothing,
    /// The fields of the item of this number.
    Fields(usize),
    /// The parameters of the item of this number.
    Parameters(usize),
    /// The name of a `let`, before the names outside of it.
    Let {
        name: &'a Name,
        outer: &'a Inner<'a>,
    },
}

/// Whether a name is one of the inner names.
#[tactic(auto, using(crate::proofs::InnerLemmas::has_fields, crate::proofs::InnerLemmas::has_parameters))]
pub fn is_inner(inner: &Inner, table: &Table, text: &[char]) -> bool
    ensures { result ≡ is_among text.now (inner_names table.now.items.now inner.now) }
{
    match inner {
        Inner::Nothing => false,
        Inner::Fields(item) => table.has(Scope::Fields(*item), text),
        Inner::Parameters(item) => table.has(Scope::Parameters(*item), text),
        Inner::Let { name, outer } => {
            name.text.as_slice() == text || is_inner(outer, table, text)
        }
    }
}
