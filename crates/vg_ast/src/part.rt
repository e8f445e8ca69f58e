use crate::{Expr, Name};
use sqlite_items::Boxed;
use vg_tok::Chars;

/// How a field is written in a line of assembly.
#[derive(Clone, Copy, Debug, PartialEq, Eq)]
pub enum NumberFormat {
    /// Without a sign, in decimal.
    Decimal,
    /// As two's complement, in decimal.
    Signed,
    Hex,
}

/// A part of a line of assembly. `at` is the place of its first token.
#[derive(Drop)]
pub enum Part {
    Text {
        at: usize,
        text: Chars,
    },
    Mnemonic {
        at: usize,
    },
    /// `register(file(field))`
    Register {
        at: usize,
        file: Name,
        field: Name,
    },
    Number {
        format: NumberFormat,
        at: usize,
        field: Name,
    },
    /// `target(field, shift)`
    Target {
        at: usize,
        field: Name,
        shift: Boxed<Expr>,
    },
}
