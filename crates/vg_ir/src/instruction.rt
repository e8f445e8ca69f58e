use crate::{
    Alignment, BinaryOperator, CastOperator, IntegerAt, NameAt, Number, Operand, Predicate, Spot,
    TypeAt, TypedOperand,
};
use sqlite_items::{Boxed, Items};

/// An instruction other than a phi and a terminator. In each form `at` is the place of its word, as `add`.
#[derive(Drop)]
pub enum Instruction {
    Binary(Boxed<Binary>),
    Compare(Boxed<Compare>),
    Select(Boxed<Select>),
    Cast(Boxed<Cast>),
    Freeze(Boxed<Freeze>),
    Alloca(Boxed<Alloca>),
    Load(Boxed<Load>),
    Store(Boxed<Store>),
    ElementPointer(Boxed<ElementPointer>),
    Call(Boxed<Call>),
}

/// `%r = OP T a, b`
#[derive(Drop)]
pub struct Binary {
    pub at: Spot,
    pub result: NameAt,
    pub operator: BinaryOperator,
    pub ty: TypeAt,
    pub left: Operand,
    pub right: Operand,
}

/// `%r = icmp P T a, b`
#[derive(Drop)]
pub struct Compare {
    pub at: Spot,
    pub result: NameAt,
    pub predicate: Predicate,
    pub ty: TypeAt,
    pub left: Operand,
    pub right: Operand,
}

/// `%r = select i1 c, T a, T b`
#[derive(Drop)]
pub struct Select {
    pub at: Spot,
    pub result: NameAt,
    pub condition: Operand,
    pub then: TypedOperand,
    pub otherwise: TypedOperand,
}

/// `%r = OP T a to U`
#[derive(Drop)]
pub struct Cast {
    pub at: Spot,
    pub result: NameAt,
    pub operator: CastOperator,
    pub operand: TypedOperand,
    pub target: TypeAt,
}

/// `%r = freeze T a`
#[derive(Drop)]
pub struct Freeze {
    pub at: Spot,
    pub result: NameAt,
    pub operand: TypedOperand,
}

/// `%r = alloca T [, iN n] [, align n]`
#[derive(Drop)]
pub struct Alloca {
    pub at: Spot,
    pub result: NameAt,
    pub ty: TypeAt,
    pub count: Option<Count>,
    pub align: Option<Alignment>,
}

/// How many of a type stand in an object.
#[derive(Clone, Copy, Debug, PartialEq, Eq)]
pub struct Count {
    pub ty: IntegerAt,
    pub number: Number,
    /// The place of the number.
    pub at: Spot,
}

/// `%r = load T, ptr p`
#[derive(Drop)]
pub struct Load {
    pub at: Spot,
    pub result: NameAt,
    pub ty: TypeAt,
    pub pointer: Operand,
}

/// `store T v, ptr p`
#[derive(Drop)]
pub struct Store {
    pub at: Spot,
    pub value: TypedOperand,
    pub pointer: Operand,
}

/// `%r = getelementptr T, ptr p {, iN i}`
#[derive(Drop)]
pub struct ElementPointer {
    pub at: Spot,
    pub result: NameAt,
    pub ty: TypeAt,
    pub pointer: Operand,
    pub indices: Items<Index>,
}

/// An index of `getelementptr`.
#[derive(Drop)]
pub struct Index {
    pub ty: IntegerAt,
    pub operand: Operand,
}

/// `[%r =] call T @f ( [T v {, ..}] )`
#[derive(Drop)]
pub struct Call {
    pub at: Spot,
    pub result: Option<NameAt>,
    /// The type of what it gives; None for `void`.
    pub gives: Option<TypeAt>,
    pub callee: NameAt,
    pub arguments: Items<TypedOperand>,
}
