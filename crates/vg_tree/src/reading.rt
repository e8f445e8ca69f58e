use sqlite_items::Boxed;
use vg_isa::Expr;

/// A memory read.
#[derive(Drop)]
pub struct Reading {
    /// The place of the memory's name.
    pub at: usize,
    /// The place of the first token of the address.
    pub address_at: usize,
    pub address: Boxed<Expr>,
    /// How many bytes are read.
    pub bytes: u128,
}
