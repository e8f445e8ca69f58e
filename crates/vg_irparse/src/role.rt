/// What the grammar wants at a place, as far as a refusal asks for it.
#[derive(Clone, Copy, Debug, PartialEq, Eq)]
pub enum Role {
    /// Nothing that a refusal asks for.
    Plain,
    /// `ptr`, `i1` or an integer type alone.
    FixedType,
    /// Any type.
    AnyType,
    /// The type of a value.
    ValueType,
    Operand,
    Initial,
    /// The name of a function that is called.
    Callee,
    /// The word of an instruction behind `=`.
    Operation,
    /// The number of elements of an `alloca`.
    Count,
}

/// What the grammar wants at a place, and whether a type has just ended.
#[derive(Clone, Copy, Debug, PartialEq, Eq)]
pub struct Wanted {
    pub role: Role,
    pub behind_type: bool,
}
