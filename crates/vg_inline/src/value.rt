use vg_whole::Worth;

/// What an expression is worth, and what stands in its place.
#[derive(Drop)]
pub struct Value<T> {
    pub worth: Worth,
    pub tree: T,
}
