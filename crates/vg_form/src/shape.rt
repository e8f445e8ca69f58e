use crate::form::Behaviour;

/// The fields of the one format by which a behaviour speaks of registers.
#[derive(Clone, Copy, Debug, PartialEq, Eq)]
pub enum Operand {
    Rd,
    Rs1,
    Rs2,
}

/// What an expression is, as far as the form asks.
#[derive(Clone, Copy, Debug, PartialEq, Eq)]
pub enum Shape {
    /// A number.
    Number(u128),
    /// A field.
    Field(Operand),
    /// `X(field)`
    Register(Operand),
    /// `field as Bits<32>`
    Extended(Operand),
    /// The value of a behaviour.
    Value(Behaviour),
    Other,
}
