use crate::{Effect, Tree};
use sqlite_items::Items;

/// A tree that doesn't have too many nodes. Where trees aren't kept, a leaf stands for each.
#[derive(Drop)]
pub struct Kept {
    pub tree: Tree,
    /// How many nodes it has; parameters count nothing.
    pub nodes: usize,
    /// The parameters in it, each as often as it stands there.
    pub parameters: Items<usize>,
}

/// Trees that don't have too many nodes together.
#[derive(Drop)]
pub struct KeptList {
    pub trees: Items<Tree>,
    /// How many nodes they have together.
    pub nodes: usize,
    /// The parameters in them.
    pub parameters: Items<usize>,
}

/// A statement that doesn't have too many nodes. Where trees aren't kept, an empty block stands for each.
#[derive(Drop)]
pub struct KeptEffect {
    pub effect: Effect,
    /// How many nodes it has.
    pub nodes: usize,
}

/// Statements that don't have too many nodes together.
#[derive(Drop)]
pub struct KeptEffects {
    pub effects: Items<Effect>,
    /// How many nodes they have together.
    pub nodes: usize,
}
