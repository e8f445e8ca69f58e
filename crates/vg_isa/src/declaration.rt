use crate::Text;
use vg_bits::Width;

/// The program counter.
#[derive(Drop)]
pub struct PcDecl {
    pub name: Text,
    pub width: Width,
}

/// A single register, or a register file with 2 to its index width registers.
#[derive(Drop)]
pub struct RegDecl {
    pub name: Text,
    /// The width of the index; None at a single register.
    pub index: Option<Width>,
    pub width: Width,
    /// The index of the register that reads as 0.
    pub zero: Option<u8>,
}
