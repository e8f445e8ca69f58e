use crate::{NameAt, Number, Operand, Spot, TypeAt, TypedOperand};
use sqlite_items::{Boxed, Items};

/// How a block ends. In each form `at` is the place of its word, as `br`.
#[derive(Drop)]
pub enum Terminator {
    Jump(Boxed<Jump>),
    Branch(Boxed<Branch>),
    Switch(Boxed<Switch>),
    Return(Boxed<Return>),
    Unreachable { at: Spot },
}

/// `br label %b`
#[derive(Drop)]
pub struct Jump {
    pub at: Spot,
    pub target: NameAt,
}

/// `br i1 c, label %a, label %b`
#[derive(Drop)]
pub struct Branch {
    pub at: Spot,
    pub condition: Operand,
    pub then: NameAt,
    pub otherwise: NameAt,
}

/// `switch T v, label %d [ {T n, label %b} ]`
#[derive(Drop)]
pub struct Switch {
    pub at: Spot,
    pub value: TypedOperand,
    /// Where no case has the value's number.
    pub otherwise: NameAt,
    pub cases: Items<Case>,
}

/// A case of a `switch`.
#[derive(Drop)]
pub struct Case {
    pub ty: TypeAt,
    pub number: Number,
    /// The place of the number.
    pub at: Spot,
    pub target: NameAt,
}

/// `ret T v` or `ret void`
#[derive(Drop)]
pub struct Return {
    pub at: Spot,
    pub value: Option<TypedOperand>,
}
