use crate::{Block, Linkage, NameAt, TypeAt};
use sqlite_items::Items;

/// A definition of a function.
#[derive(Drop)]
pub struct Function {
    pub name: NameAt,
    pub linkage: Option<Linkage>,
    /// The type of what it gives; None for `void`.
    pub gives: Option<TypeAt>,
    pub parameters: Items<Parameter>,
    /// At least one; the first is the entry.
    pub blocks: Items<Block>,
}

/// A parameter of a function. One without a name has the number of unnamed and numbered parameters before it.
#[derive(Drop)]
pub struct Parameter {
    pub ty: TypeAt,
    pub name: NameAt,
}
