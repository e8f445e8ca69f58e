use crate::{Expr, Name, TypeExpr};
use sqlite_items::Boxed;

/// A parameter of a function, with its type.
#[derive(Drop)]
pub struct Parameter {
    pub name: Name,
    pub declared: TypeExpr<Boxed<Expr>>,
}
