use crate::{Expr, Name};
use sqlite_items::Boxed;

/// A field that an encoding fixes, with its value.
#[derive(Drop)]
pub struct Fix {
    pub name: Name,
    pub value: Boxed<Expr>,
}
