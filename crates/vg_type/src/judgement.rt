use crate::Sort;

/// What is found of an expression: where it begins, what it is, and the first places in it at which types and
/// ranges are broken.
#[derive(Clone, Copy, Debug)]
pub struct Judgement {
    pub start: usize,
    pub sort: Sort,
    pub width: Option<usize>,
    pub range: Option<usize>,
}
