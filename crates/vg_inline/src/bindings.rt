use vg_ast::Name;
use vg_whole::Worth;

/// The names of the `let`s around a place in a declared type, with what they are worth.
#[derive(Clone, Copy)]
pub enum Bindings<'a> {
    Nothing,
    /// The name of a `let`, before the names outside of it.
    Let {
        name: &'a Name,
        worth: Worth,
        outer: &'a Bindings<'a>,
    },
}
