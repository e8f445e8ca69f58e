ghost use Rattle.std.specs.Prelude.{◌≡◌};
ghost use Rattle.vg_resolve.specs.Asked.{asked_of};
ghost use Rattle.vg_names.specs.First.{first_of};
ghost use Rattle.vg_names.specs.Inner.{inner_names};
ghost use Rattle.vg_names.specs.Unknown.{unless as unless_of, global as global_of, value as value_of, field_use as field_use_of};

use crate::asked::{Asked, is_right};
use vg_ast::Name;
use vg_names::{Inner, Table, is_inner};

/// The place of a name, where a test fails.
pub fn unless(test: bool, name: &Name) -> Option<usize>
    ensures { result ≡ first_of (unless_of test name.now) }
{
    if test { None } else { Some(name.at) }
}

/// A name at a place that asks for an item.
pub fn global(name: &Name, asked: Asked, table: &Table, inner: &Inner) -> Option<usize>
    ensures { result ≡ first_of (global_of table.now.items.now (inner_names table.now.items.now inner.now) (asked_of asked) name.now) }
{
    if is_inner(inner, table, name.text.as_slice()) {
        return Some(name.at);
    }
    unless(is_right(asked, table.meaning(name.text.as_slice())), name)
}

/// A name at a place that asks for a value, which may be an inner name.
pub fn value(name: &Name, table: &Table, inner: &Inner) -> Option<usize>
    ensures { result ≡ first_of (value_of table.now.items.now (inner_names table.now.items.now inner.now) name.now) }
{
    if is_inner(inner, table, name.text.as_slice()) {
        return None;
    }
    unless(
        is_right(Asked::Value, table.meaning(name.text.as_slice())),
        name,
    )
}

/// A name at a place that asks for one of the fields in scope.
pub fn field_use(name: &Name, table: &Table, fields: &Inner) -> Option<usize>
    ensures { result ≡ first_of (field_use_of (inner_names table.now.items.now fields.now) name.now) }
{
    unless(is_inner(fields, table, name.text.as_slice()), name)
}
