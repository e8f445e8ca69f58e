use sqlite_items::Boxed;
use vg_ast::{Goal, Statement};

/// The greatest depth of a tree.
pub(crate) const MOST_DEPTH: u8 = 64;

/// A statement that was read, with its depth.
#[derive(Drop)]
pub struct SizedStatement {
    pub tree: Boxed<Statement>,
    pub depth: u8,
}

/// What a statement writes, as it was read, with its depth.
#[derive(Drop)]
pub struct SizedGoal {
    pub tree: Goal,
    pub depth: u8,
}
