use crate::Worth;

/// What an expression is worth, and the place of the first operator in it that leaves the whole numbers.
#[derive(Clone, Copy, Debug)]
pub struct Judgement {
    pub worth: Worth,
    pub place: Option<usize>,
}
