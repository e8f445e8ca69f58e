/// An argument of the function in which a run begins: a whole number, or that less than 0.
#[derive(Clone, Copy, Debug, PartialEq, Eq)]
pub struct Argument {
    /// A `-` stands before it.
    pub negative: bool,
    pub value: u64,
}
