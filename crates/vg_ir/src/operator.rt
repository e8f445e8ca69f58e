/// What a two-operand instruction makes of its operands.
#[derive(Clone, Copy, Debug, PartialEq, Eq)]
pub enum BinaryOperator {
    Add,
    Sub,
    Mul,
    Udiv,
    Sdiv,
    Urem,
    Srem,
    Shl,
    Lshr,
    Ashr,
    And,
    Or,
    Xor,
}

/// What `icmp` asks of its operands.
#[derive(Clone, Copy, Debug, PartialEq, Eq)]
pub enum Predicate {
    Eq,
    Ne,
    Ugt,
    Uge,
    Ult,
    Ule,
    Sgt,
    Sge,
    Slt,
    Sle,
}

/// What a cast does to the bits of its operand.
#[derive(Clone, Copy, Debug, PartialEq, Eq)]
pub enum CastOperator {
    /// To a wider integer, with zeros.
    Zext,
    /// To a wider integer, with the sign.
    Sext,
    /// To a narrower integer.
    Trunc,
    /// From an address to an integer, cut or extended with zeros.
    PtrToInt,
    /// From an integer to an address, cut or extended with zeros.
    IntToPtr,
    /// To the same type.
    Bitcast,
}
