use crate::Declared;
use vg_ast::{BinaryOperator, UnaryOperator};
use vg_whole::Worth;

/// What a node of a tree is, over its parts.
#[derive(Clone, Copy, Debug, PartialEq, Eq)]
pub enum Head {
    /// A whole number, which takes its type from its place; None where it has no value.
    Whole {
        value: Option<u128>,
    },
    /// A whole number that took the type of a parameter or of the result of a function.
    Constant {
        value: Option<u128>,
        declared: Declared,
    },
    /// A field, by its number in the format of the instruction.
    Field {
        field: usize,
    },
    /// A parameter of the function whose body this is, by its number.
    Parameter {
        parameter: usize,
    },
    /// A parameter that gets no argument; a later rule refuses such a call.
    Missing,
    /// The program counter or a single register, by the number of its item.
    Resource {
        item: usize,
    },
    /// A register of a register file, by the number of the file's item, over its index. `at` is the place of the file's
    /// name, and `index_at` that of the first token of the index.
    Indexed {
        item: usize,
        at: usize,
        index_at: usize,
    },
    /// Bytes of memory, over their address. `at` is the place of the memory's name, and `address_at` that of the first
    /// token of the address.
    Access {
        at: usize,
        size: Worth,
        address_at: usize,
    },
    /// The high bits, and then the low ones.
    Join,
    Unary {
        operator: UnaryOperator,
    },
    Binary {
        operator: BinaryOperator,
    },
    Cast {
        target: Declared,
    },
    Slice {
        high: Worth,
        low: Worth,
    },
    /// A condition, and then the two values.
    If,
}
