/// What an act of a stage does, or a `forward`.
#[derive(Clone, Copy, Debug, PartialEq, Eq, Hash)]
pub(crate) enum ActKind {
    Read,
    Write,
    Compute,
    Resolve,
    Forward,
}
