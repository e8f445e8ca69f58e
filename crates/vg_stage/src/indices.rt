/// What is found of the indices of a tree or of the parts of one.
#[derive(Clone, Copy, Debug, PartialEq, Eq)]
pub(crate) struct Indices {
    /// Whether all of it is made of fields, constants and casts alone.
    pub is_plain: bool,
    /// The first place of an index in it that isn't so made.
    pub first: Option<usize>,
}
