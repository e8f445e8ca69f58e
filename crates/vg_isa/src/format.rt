use crate::Text;
use sqlite_items::Items;

/// The fields of an instruction word.
#[derive(Drop)]
pub struct Format {
    pub name: Text,
    pub fields: Items<FieldDecl>,
}

/// A field of a word.
#[derive(Drop)]
pub struct FieldDecl {
    pub name: Text,
    /// Its ranges of bits, each as its high and its low bit, the most significant range first.
    pub ranges: Items<(u8, u8)>,
}
