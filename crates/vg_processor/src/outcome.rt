use crate::read_place::ReadPlace;
use sqlite_items::Items;
use vg_isa::Write;
use vg_tree::Written;

/// What an instruction does to some of its resources.
#[derive(Drop)]
pub struct Outcome {
    /// The writes of memory and registers.
    pub writes: Items<Write>,
    /// The number of the program counter, where it is among them.
    pub counter: Option<usize>,
    /// What is written to it.
    pub next: Option<Written>,
    /// The first memory read in all that is written.
    pub read: Option<ReadPlace>,
}
