use crate::reading::Reading;
use sqlite_items::{Boxed, Items};
use vg_isa::Expr;
use vg_type::Sort;

/// What stands for an expression with everything in place.
#[derive(Drop)]
pub struct Made {
    pub sort: Sort,
    /// A whole number stands here at 128 bits.
    pub tree: Boxed<Expr>,
    /// The memory reads in it, those in an address before the read of that address.
    pub readings: Items<Reading>,
}
