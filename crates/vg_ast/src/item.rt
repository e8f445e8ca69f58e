use crate::{Expr, Field, Fix, Name, Parameter, Part, Statement, TypeExpr};
use sqlite_items::{Boxed, Items};

/// An item of the instruction set part. `at` is the place of its first token.
#[derive(Drop)]
pub enum Item {
    Constant {
        at: usize,
        name: Name,
        value: Boxed<Expr>,
    },
    Using {
        at: usize,
        name: Name,
        meaning: TypeExpr<Boxed<Expr>>,
    },
    Function {
        at: usize,
        name: Name,
        parameters: Items<Parameter>,
        result: TypeExpr<Boxed<Expr>>,
        body: Boxed<Expr>,
    },
    ProgramCounter {
        at: usize,
        name: Name,
        declared: TypeExpr<Boxed<Expr>>,
    },
    Memory {
        at: usize,
        name: Name,
        address: TypeExpr<Boxed<Expr>>,
        cell: TypeExpr<Boxed<Expr>>,
    },
    Register {
        at: usize,
        name: Name,
        declared: TypeExpr<Boxed<Expr>>,
    },
    RegisterFile {
        at: usize,
        name: Name,
        index: TypeExpr<Boxed<Expr>>,
        declared: TypeExpr<Boxed<Expr>>,
        /// The index of the register that is always 0.
        zero: Option<Boxed<Expr>>,
    },
    Format {
        at: usize,
        name: Name,
        declared: TypeExpr<Boxed<Expr>>,
        fields: Items<Field>,
    },
    Instruction {
        at: usize,
        name: Name,
        format: Name,
        behaviour: Boxed<Statement>,
    },
    Encoding {
        at: usize,
        name: Name,
        fixes: Items<Fix>,
    },
    Assembly {
        at: usize,
        name: Name,
        parts: Items<Part>,
    },
}
