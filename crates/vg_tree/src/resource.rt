use vg_isa::RegId;
use vg_type::ValueType;

/// What an item is where a behaviour names it.
#[derive(Clone, Copy, Debug, PartialEq, Eq)]
pub struct Resource {
    /// How many registers and register files stand before it.
    pub id: RegId,
    pub is_counter: bool,
    /// Its type, if it is a program counter or a single register.
    pub single: Option<ValueType>,
    /// The type of the index of a register file.
    pub index: Option<ValueType>,
    /// The type of the registers of a register file.
    pub gives: Option<ValueType>,
}
