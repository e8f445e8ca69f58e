use sqlite_items::Boxed;
use vg_isa::Expr;

/// A write to a resource, as far as others are compared with it.
#[derive(Drop)]
pub(crate) struct Write {
    /// The number of the item that is written.
    pub(crate) item: usize,
    /// The index or the address, where the resource takes one.
    pub(crate) at: Option<Boxed<Expr>>,
    /// How many bytes of memory are written.
    pub(crate) bytes: u128,
    /// The place of the name that is written.
    pub(crate) place: usize,
}
