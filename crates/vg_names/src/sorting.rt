use sqlite_items::Items;

/// The nodes of a graph, each behind all that it uses, or the first that uses itself.
#[derive(Drop)]
pub enum Sorting {
    Order(Items<usize>),
    Circular(usize),
}
