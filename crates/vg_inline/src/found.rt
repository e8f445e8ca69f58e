use crate::Value;
use crate::kept::Kept;

/// What an inner name stands for.
#[derive(Clone, Copy)]
pub enum Found<'a> {
    /// The field of this number.
    Field(usize),
    /// The parameter of this number.
    Parameter(usize),
    /// What a `let` binds.
    Bound(&'a Value<Option<Kept>>),
}
