use sqlite_items::Items;
use vg_isa::Text;

/// A description of the form that is read so far: a processor with 32 registers of 32 bits.
#[derive(Drop)]
pub struct Form {
    pub name: Text,
    pub pairs: Items<Pair>,
}

/// An instruction and its encoding.
#[derive(Drop)]
pub struct Pair {
    pub name: Text,
    pub behaviour: Behaviour,
    pub f7: u8,
    pub f3: u8,
    pub op: u8,
}

/// What an instruction does.
#[derive(Clone, Copy, Debug, PartialEq, Eq)]
pub enum Behaviour {
    /// `X(rd) := X(rs1) + X(rs2)`
    AddRegisters,
    /// `X(rd) := X(rs1) + rs2 as Bits<32>`
    AddField,
}
