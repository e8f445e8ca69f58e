use crate::{MicroItem, Name};
use sqlite_items::Items;

/// The micro architecture part.
#[derive(Drop)]
pub struct Micro {
    /// The place of the word `micro`.
    pub at: usize,
    /// The name of the architecture that it is for.
    pub name: Name,
    pub items: Items<MicroItem>,
    /// The place of the `}` that closes it.
    pub close: usize,
}
