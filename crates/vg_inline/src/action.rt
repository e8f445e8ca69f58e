/// What is done next with the body of a function, by the number of its item.
#[derive(Clone, Copy, Debug, PartialEq, Eq)]
pub enum Action {
    /// It is made.
    Make(usize),
    /// Nothing uses it any more, and it is dropped.
    Release(usize),
}
