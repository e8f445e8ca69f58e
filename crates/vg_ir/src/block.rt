use crate::{Instruction, NameAt, Operand, Spot, Terminator, TypeAt};
use sqlite_items::Items;

/// A block: its phis, its other instructions, and the terminator.
#[derive(Drop)]
pub struct Block {
    /// A first block without a label has the number of unnamed and numbered parameters.
    pub name: NameAt,
    pub phis: Items<Phi>,
    pub instructions: Items<Instruction>,
    pub terminator: Terminator,
}

/// `%r = phi T [ v, %b ] {, ..}`
#[derive(Drop)]
pub struct Phi {
    /// The place of the word `phi`.
    pub at: Spot,
    pub result: NameAt,
    pub ty: TypeAt,
    /// At least one.
    pub incoming: Items<Incoming>,
}

/// What a phi takes where its block is entered from this one.
#[derive(Drop)]
pub struct Incoming {
    pub operand: Operand,
    pub block: NameAt,
}
