/// What is found of arguments.
#[derive(Clone, Copy, Debug)]
pub struct Taking {
    /// One of them has no type.
    pub untyped: bool,
    /// The first places in them at which types and ranges are broken.
    pub width: Option<usize>,
    pub range: Option<usize>,
    /// Each has the type of its parameter.
    pub fits: bool,
}
