use crate::ValueType;

/// What is found of a type as it is written.
#[derive(Clone, Copy, Debug)]
pub struct Written {
    /// Its width has no value, or its alias is at fault.
    pub blocked: bool,
    pub has: Option<ValueType>,
    /// The first places in it at which types and ranges are broken.
    pub width: Option<usize>,
    pub range: Option<usize>,
}
