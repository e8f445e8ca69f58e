use crate::Name;

/// How the bits of a number are read.
#[derive(Clone, Copy, Debug, PartialEq, Eq)]
pub enum BitsKind {
    Bits,
    UInt,
    SInt,
}

/// A type as it is written. `E` is the expression of its width, which is boxed in all trees.
#[derive(Drop)]
pub enum TypeExpr<E> {
    /// `Bits<width>`, `UInt<width>` or `SInt<width>`.
    Sized { kind: BitsKind, at: usize, width: E },
    Bool { at: usize },
    /// The name of an alias.
    Alias(Name),
}
