use crate::{Expr, Goal, Name};
use sqlite_items::{Boxed, Items};

/// A statement of a behaviour. `at` is the place of its first token.
#[derive(Drop)]
pub enum Statement {
    Block {
        at: usize,
        statements: Items<Statement>,
    },
    Let {
        at: usize,
        name: Name,
        bound: Boxed<Expr>,
        body: Boxed<Statement>,
    },
    If {
        at: usize,
        condition: Boxed<Expr>,
        then: Boxed<Statement>,
        otherwise: Option<Boxed<Statement>>,
    },
    /// `goal := value`
    Assign {
        goal: Goal,
        value: Boxed<Expr>,
    },
}
