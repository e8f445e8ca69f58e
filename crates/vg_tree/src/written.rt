use crate::reading::Reading;
use sqlite_items::{Boxed, Items};
use vg_isa::Expr;

/// What a behaviour writes to one resource. The spots are the places of the first tokens of its parts.
#[derive(Drop)]
pub struct Written {
    /// The condition of the paths that write.
    pub guard: Boxed<Expr>,
    pub guard_spot: Option<usize>,
    /// The index or the address, where the resource takes one.
    pub at: Option<Boxed<Expr>>,
    pub at_spot: Option<usize>,
    pub value: Boxed<Expr>,
    pub value_spot: usize,
    /// The memory reads in these trees, and in conditions that chose between them.
    pub readings: Items<Reading>,
}
