use crate::{Abi, Item, Micro, Name};
use sqlite_items::Items;

/// A description.
#[derive(Drop)]
pub struct Desc {
    pub name: Name,
    pub items: Items<Item>,
    /// The place of the `}` that closes the instruction set part.
    pub close: usize,
    pub abi: Option<Abi>,
    pub micro: Option<Micro>,
}
