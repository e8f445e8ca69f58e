use crate::ids::ResourceId;
use vg_bits::Bits;

/// A write that an instruction makes.
#[derive(Clone, Copy, Debug, PartialEq, Eq)]
pub struct Made {
    pub resource: ResourceId,
    /// The index of the register, or the address; None at a single register.
    pub at: Option<Bits>,
    pub value: Bits,
}
