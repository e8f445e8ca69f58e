use crate::Expr;
use sqlite_items::Boxed;

/// A range of bits, the high bit first. A single bit has no low one.
#[derive(Drop)]
pub struct Range {
    pub high: Boxed<Expr>,
    pub low: Option<Boxed<Expr>>,
}
