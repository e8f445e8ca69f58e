use crate::{Expr, Name};
use sqlite_items::Boxed;

/// What a statement writes.
#[derive(Drop)]
pub enum Goal {
    /// The program counter or a single register.
    Name(Name),
    /// A register of a register file.
    Indexed {
        name: Name,
        index: Boxed<Expr>,
    },
    /// Bytes of memory, `memory<size>(address)`; `at` is the place of the `<`.
    Access {
        memory: Name,
        at: usize,
        size: Boxed<Expr>,
        address: Boxed<Expr>,
    },
}
