use crate::Tree;
use sqlite_items::{Boxed, Items};
use vg_whole::Worth;

/// What an assignment writes. `at` is the place of the name that is written.
#[derive(Clone, Copy, Debug, PartialEq, Eq)]
pub enum Target {
    /// The program counter or a single register, by the number of its item.
    Resource {
        item: usize,
        at: usize,
    },
    /// A register of a register file, by the number of the file's item; `index_at` is the place of the first token of its
    /// index.
    Indexed {
        item: usize,
        at: usize,
        index_at: usize,
    },
    /// Bytes of memory; `address_at` is the place of the first token of their address.
    Access {
        at: usize,
        size: Worth,
        address_at: usize,
    },
}

/// A statement with everything in place of its names.
#[derive(Drop)]
pub enum Effect {
    Block {
        effects: Items<Effect>,
    },
    /// `condition_at` is the place of the first token of the condition.
    If {
        condition_at: usize,
        condition: Tree,
        then: Boxed<Effect>,
        otherwise: Option<Boxed<Effect>>,
    },
    /// `parts` has the index or the address of the target, where it has one. `value_at` is the place of the first token of
    /// the value.
    Assign {
        target: Target,
        parts: Items<Tree>,
        value_at: usize,
        value: Tree,
    },
}
