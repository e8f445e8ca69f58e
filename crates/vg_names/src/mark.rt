/// How far a search has come with a node of a graph.
#[derive(Clone, Copy, Debug, PartialEq, Eq)]
pub enum Mark {
    New,
    /// It is searched, and what it uses is searched first.
    Open,
    /// It stands in the order.
    Done,
}
