use crate::Sort;
use vg_ast::{Name, Parameter};

/// The inner names at a place, which hide those of items.
#[derive(Clone, Copy)]
pub enum Names<'a> {
    Nothing,
    /// The fields of the format of this number.
    Fields(usize),
    /// The parameters of a function.
    Parameters(&'a [Parameter]),
    /// The name of a `let`, before the names outside of it.
    Let {
        name: &'a Name,
        sort: Sort,
        outer: &'a Names<'a>,
    },
}
