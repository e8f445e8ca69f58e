use crate::rule::Rule;

/// A rule that a description breaks, and a place where it does: the offset of a byte in the text, from 0.
#[derive(Clone, Copy, Debug, PartialEq, Eq)]
pub struct Breach {
    pub rule: Rule,
    pub at: usize,
}
