use crate::{BinaryOperator, Name, TypeExpr, UnaryOperator};
use sqlite_items::{Boxed, Items};

/// An expression as it is written. `at` is the place of its first token, or of the sign or word that the variant names.
#[derive(Drop)]
pub enum Expr {
    Number {
        value: u128,
        at: usize,
    },
    Name(Name),
    /// A call of a function, or a register of a register file.
    Call {
        name: Name,
        arguments: Items<Expr>,
    },
    /// An access to memory, `memory<size>(address)`; `at` is the place of the `<`.
    Access {
        memory: Name,
        at: usize,
        size: Boxed<Expr>,
        address: Boxed<Expr>,
    },
    /// `join(high, low)`
    Join {
        at: usize,
        high: Boxed<Expr>,
        low: Boxed<Expr>,
    },
    Parentheses {
        at: usize,
        inner: Boxed<Expr>,
    },
    Unary {
        operator: UnaryOperator,
        at: usize,
        operand: Boxed<Expr>,
    },
    /// `at` is the place of the operator.
    Binary {
        operator: BinaryOperator,
        at: usize,
        left: Boxed<Expr>,
        right: Boxed<Expr>,
    },
    /// `operand as target`; `at` is the place of the `as`.
    Cast {
        operand: Boxed<Expr>,
        at: usize,
        target: TypeExpr<Boxed<Expr>>,
    },
    /// `operand[high..low]`; `at` is the place of the `[`.
    Slice {
        operand: Boxed<Expr>,
        at: usize,
        high: Boxed<Expr>,
        low: Boxed<Expr>,
    },
    If {
        at: usize,
        condition: Boxed<Expr>,
        then: Boxed<Expr>,
        otherwise: Boxed<Expr>,
    },
    Let {
        at: usize,
        name: Name,
        bound: Boxed<Expr>,
        body: Boxed<Expr>,
    },
}
