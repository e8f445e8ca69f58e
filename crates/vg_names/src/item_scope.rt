use crate::table::Table;
use indexmap::IndexSet;
use vg_ast::Parameter;

/// The names that a name in an item may stand for, but for those that `let` binds.
#[derive(Clone, Copy)]
pub struct ItemScope<'a, 'b> {
    pub table: &'a Table<'b>,
    pub parameters: &'a [Parameter],
    /// The names of the parameters.
    pub hidden: &'a IndexSet<&'b [char]>,
}
