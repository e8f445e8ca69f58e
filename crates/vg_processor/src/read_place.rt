/// Where a memory read stands in the text.
#[derive(Clone, Copy, Debug, PartialEq, Eq)]
pub struct ReadPlace {
    /// The place of the memory's name.
    pub at: usize,
    /// The place of the first token of the address.
    pub address_at: usize,
}
