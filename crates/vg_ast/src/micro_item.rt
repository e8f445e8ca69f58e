use crate::{Act, Name};
use sqlite_items::Items;

/// An item of the micro architecture. `at` is the place of its first token.
#[derive(Drop)]
pub enum MicroItem {
    Stage {
        at: usize,
        name: Name,
        acts: Items<Act>,
    },
    Forward {
        at: usize,
        resource: Name,
    },
}
