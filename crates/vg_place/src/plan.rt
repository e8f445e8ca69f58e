use crate::stage_table::Stages;
use sqlite_items::Items;

/// The stages in which the parts of a write are there.
#[derive(Clone, Copy, Debug, PartialEq, Eq)]
pub struct WritePlan {
    pub guard: u8,
    /// Of the index or address; 0 at a single register.
    pub at: u8,
    pub value: u8,
}

/// The stages in which the parts of the next program counter are there.
#[derive(Clone, Copy, Debug, PartialEq, Eq)]
pub struct NextPlan {
    pub guard: u8,
    pub value: u8,
}

/// The stages in which the parts of an instruction are there.
#[derive(Drop)]
pub struct InstrPlan {
    /// For each of its writes.
    pub writes: Items<WritePlan>,
    /// Of what it writes to the program counter; None where it goes on to the next word.
    pub next: Option<NextPlan>,
}

/// Which stage does what, and where the parts of each instruction come.
#[derive(Drop)]
pub struct Plan {
    pub stages: Stages,
    pub instrs: Items<InstrPlan>,
}
