use vg_bits::{Bits, Width};
use vg_isa::{BinOp, CastOp, FieldId, RegId, UnOp};

/// What a tree holds at its top but its operands.
#[derive(Clone, Copy, Debug, PartialEq, Eq)]
pub enum Op {
    Const(Bits),
    Field(FieldId),
    Pc,
    /// A register of a file has its index as an operand, a single register has no operand.
    Reg(RegId),
    /// So many bytes of memory.
    Mem(u8),
    Unary(UnOp),
    Binary(BinOp),
    Cast(CastOp, Width),
    /// The high and the low bit, both included.
    Slice(u8, u8),
    Join,
    If,
}
