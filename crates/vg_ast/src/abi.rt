use crate::{Name, Role};
use sqlite_items::Items;

/// The application binary interface part.
#[derive(Drop)]
pub struct Abi {
    /// The place of the word `application`.
    pub at: usize,
    /// The name of the architecture that it is for.
    pub name: Name,
    pub roles: Items<Role>,
    /// The place of the `}` that closes it.
    pub close: usize,
}
