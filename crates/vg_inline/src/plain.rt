use crate::declared::Declared;
use crate::kept::Kept;
use sqlite_items::Items;
use vg_ast::Desc;
use vg_whole::Worth;

/// A description that keeps the rules of names, constants and sizes, with what is known of its items. Each list has one for
/// each item, at its number.
#[derive(Drop)]
pub struct Plain {
    pub description: Desc,
    /// What each item is worth: a whole number, where it is a constant of whole numbers alone.
    pub worths: Items<Worth>,
    /// What each alias stands for.
    pub aliases: Items<Declared>,
    /// How many nodes the body of each function has, with everything but its parameters in place.
    pub bodies: Items<Option<Kept>>,
    /// The numbers of the constants, aliases and functions, each behind all that it uses.
    pub order: Items<usize>,
}
