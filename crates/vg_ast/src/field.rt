use crate::{Name, Range};
use sqlite_items::Items;

/// A field of a format, with one range of bits or more, the most significant first.
#[derive(Drop)]
pub struct Field {
    pub name: Name,
    pub ranges: Items<Range>,
}
