use crate::Text;
use crate::ids::{RegId, ResourceId};
use sqlite_items::Items;

/// The application binary interface: the roles of registers of one file, and the layout of memory.
#[derive(Drop)]
pub struct Abi {
    pub file: RegId,
    pub stack_pointer: u8,
    pub return_address: u8,
    pub return_value: u8,
    pub arguments: Items<u8>,
    pub temporaries: Items<u8>,
    pub saved: Items<u8>,
    pub code_base: u64,
    pub data_base: u64,
    /// The low end of the stack.
    pub low: u64,
    /// The high end of the stack.
    pub high: u64,
}

/// The micro architecture: the stages of the pipeline in order.
#[derive(Drop)]
pub struct Micro {
    pub stages: Items<Stage>,
    /// The registers whose values may be taken before they are written.
    pub forward: Items<RegId>,
}

/// A stage of the pipeline.
#[derive(Drop)]
pub struct Stage {
    pub name: Text,
    pub acts: Items<Act>,
}

/// What a stage does.
#[derive(Clone, Copy, Debug, PartialEq, Eq, Hash)]
pub enum Act {
    Read(ResourceId),
    Write(ResourceId),
    Compute,
    Resolve,
}
