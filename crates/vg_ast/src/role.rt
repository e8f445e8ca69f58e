use crate::{Expr, Register};
use sqlite_items::{Boxed, Items};

/// A role of the application binary interface. `at` is the place of its first token.
#[derive(Drop)]
pub enum Role {
    StackPointer {
        at: usize,
        register: Register,
    },
    ReturnAddress {
        at: usize,
        register: Register,
    },
    ReturnValue {
        at: usize,
        register: Register,
    },
    Arguments {
        at: usize,
        registers: Items<Register>,
    },
    Temporaries {
        at: usize,
        registers: Items<Register>,
    },
    Saved {
        at: usize,
        registers: Items<Register>,
    },
    /// Where code begins.
    Code {
        at: usize,
        base: Boxed<Expr>,
    },
    /// Where data begins.
    Data {
        at: usize,
        base: Boxed<Expr>,
    },
    /// The two ends of the stack.
    Stack {
        at: usize,
        low: Boxed<Expr>,
        high: Boxed<Expr>,
    },
}
