use crate::{Name, Number, Spot, TypeAt};

/// What an operand names.
#[derive(Drop)]
pub enum Value {
    /// A parameter or a result.
    Local(Name),
    /// A global.
    Global(Name),
    Number(Number),
    True,
    False,
    Null,
    Undef,
    Poison,
}

/// An operand, and the place of its first lexeme.
#[derive(Drop)]
pub struct Operand {
    pub value: Value,
    pub at: Spot,
}

/// An operand behind its type.
#[derive(Drop)]
pub struct TypedOperand {
    pub ty: TypeAt,
    pub operand: Operand,
}
