use crate::Value;
use crate::kept::Kept;
use vg_ast::Name;

/// The inner names at a place, which hide those of items.
#[derive(Clone, Copy)]
pub enum Names<'a> {
    Nothing,
    /// The fields of the item of this number.
    Fields(usize),
    /// The parameters of the function that the context tells.
    Parameters,
    /// The name of a `let`, before the names outside of it.
    Let {
        name: &'a Name,
        value: &'a Value<Option<Kept>>,
        outer: &'a Names<'a>,
    },
}
