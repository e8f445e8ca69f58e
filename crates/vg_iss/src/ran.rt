use crate::stepped::Stepped;

/// How a run ended, and after how many instructions.
#[derive(Clone, Copy, Debug, PartialEq, Eq)]
pub struct Ran {
    /// None exactly where it is still running.
    pub end: Option<Stepped>,
    pub done: u64,
}
