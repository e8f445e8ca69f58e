use crate::{Initializer, NameAt, Spot, TypeAt};

/// Who may name a function or a global. Without a word for it, each text of a program may.
#[derive(Clone, Copy, Debug, PartialEq, Eq)]
pub enum Linkage {
    Private,
    Internal,
    Common,
}

/// A written alignment, and the place of its number.
#[derive(Clone, Copy, Debug, PartialEq, Eq)]
pub struct Alignment {
    /// 0 counts as none. A number of 2^64 or more is kept as 2^64 - 1.
    pub bytes: u64,
    pub at: Spot,
}

/// `@name = [linkage] (global | constant) T INIT [, align n]`
#[derive(Drop)]
pub struct Global {
    pub name: NameAt,
    pub linkage: Option<Linkage>,
    /// It is a `constant`: nothing is stored to it.
    pub constant: bool,
    pub ty: TypeAt,
    pub initial: Initializer,
    pub align: Option<Alignment>,
}
