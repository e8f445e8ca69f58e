use crate::Head;
use sqlite_items::Items;

/// An expression with everything in place of its names.
#[derive(Drop)]
pub struct Tree {
    pub head: Head,
    pub parts: Items<Tree>,
}
