/// A short form of an item that goes to another item.
#[derive(Clone, Copy, Drop)]
pub struct Short {
    /// The number of the item that it goes to; the number of items for the end.
    pub to: u32,
    /// Its words, more than the lead and at most those of the item.
    pub words: u32,
    /// The words in front of the one that goes there.
    pub lead: u32,
    /// The least distance in bytes that it reaches, at most 0. A distance is that from the end of the lead.
    pub least: i64,
    /// The greatest distance in bytes that it reaches, at least 0.
    pub greatest: i64,
}

/// A piece of code of so many words, which may have a short form.
#[derive(Clone, Copy, Drop)]
pub struct Item {
    /// Its words, where it isn't short.
    pub words: u32,
    /// Its short form, where it has one.
    pub short: Option<Short>,
}
