//! The operators of trees. Whether one is signed stands in the operator, not in a type.

/// An operator with one operand, whose width it keeps.
#[derive(Clone, Copy, Debug, PartialEq, Eq, Hash)]
pub enum UnOp {
    Not,
    Neg,
}

/// An operator with two operands.
#[derive(Clone, Copy, Debug, PartialEq, Eq, Hash)]
pub enum BinOp {
    Add,
    Sub,
    Mul,
    /// The product at double width.
    MulLong { signed: bool },
    Udiv,
    Sdiv,
    Urem,
    Srem,
    And,
    Or,
    Xor,
    Shl,
    Shr,
    Sar,
    Eq,
    Lt,
    Slt,
}

/// What a cast does to the bits of its operand.
#[derive(Clone, Copy, Debug, PartialEq, Eq, Hash)]
pub enum CastOp {
    Extend,
    SignExtend,
    Cut,
    /// The width stays.
    Keep,
}
