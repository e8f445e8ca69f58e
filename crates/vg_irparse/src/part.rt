use sqlite_items::Items;
use vg_ir::{Spot, Ty};

/// A type, and where the integers, `ptr`s and names in it stand.
#[derive(Drop)]
pub struct Part {
    pub ty: Ty,
    pub leaves: Items<Spot>,
}
