/// What an expression is worth, before any width is known.
#[derive(Clone, Copy, Debug, PartialEq, Eq)]
pub enum Worth {
    /// A whole number.
    Whole(u128),
    /// A whole number without a value: an operator in it leaves 0 to 2^128 - 1 or divides by 0, or it is the name of a
    /// constant whose expression is no whole number.
    NoValue,
    /// No whole number, since it has a type.
    Typed,
}
