use sqlite_items::Items;
use vg_isa::Text;

/// A program in the memory of a processor: code words, data, and the addresses at which a run begins and
/// ends. Addresses are below 2 to the width of the program counter.
#[derive(Drop)]
pub struct Image {
    pub code: Items<u64>,
    /// The address of the first code word.
    pub base: u64,
    pub entry: u64,
    pub stop: u64,
    /// Where a failed check of the stack goes.
    pub full: u64,
    /// The address of the first byte of data.
    pub data_base: u64,
    pub bytes: Items<u8>,
    /// In the order of their definition.
    pub symbols: Items<Symbol>,
}

/// A name for an address.
#[derive(Drop)]
pub struct Symbol {
    pub name: Text,
    pub at: u64,
}
