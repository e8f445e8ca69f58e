use crate::{Expr, Name};
use sqlite_items::Boxed;

/// A register of a register file, as a role of the ABI names it.
#[derive(Drop)]
pub struct Register {
    pub file: Name,
    pub index: Boxed<Expr>,
}
