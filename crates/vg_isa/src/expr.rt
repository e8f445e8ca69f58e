use crate::ids::{FieldId, RegId};
use crate::operator::{BinOp, CastOp, UnOp};
use sqlite_items::Boxed;
use vg_bits::{Bits, Width};

/// An expression of a behaviour, with its names put in place and its widths resolved. Bool is width 1.
#[derive(Drop)]
pub enum Expr {
    Const(Bits),
    Field(FieldId),
    /// The instruction's own address.
    Pc,
    /// A register; the index is None at a single register.
    Reg(RegId, Option<Boxed<Expr>>),
    /// So many bytes of memory from an address on, the least significant first.
    Mem(Boxed<Expr>, u8),
    Unary(UnOp, Boxed<Expr>),
    Binary(BinOp, Boxed<Expr>, Boxed<Expr>),
    Cast(CastOp, Width, Boxed<Expr>),
    /// The high and the low bit, both included.
    Slice(Boxed<Expr>, u8, u8),
    /// The first stands above the second.
    Join(Boxed<Expr>, Boxed<Expr>),
    /// Condition, then, else.
    If(Boxed<Expr>, Boxed<Expr>, Boxed<Expr>),
}
