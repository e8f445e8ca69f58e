use crate::sign::Sign;
use crate::word::Word;
use sqlite_items::Items;

/// The characters of a name or a string, which contracts see as a list.
pub type Chars = Items<char>;

/// What a token is.
#[derive(Debug, Drop)]
pub enum Kind {
    /// A name that is no reserved word.
    Name(Chars),
    /// What stands between the quotes of a string.
    Str(Chars),
    /// A number below 2 to the power of 128.
    Number(u128),
    Sign(Sign),
    Word(Word),
}

/// A token, and where it stands: the offset of its first byte, and that of the byte behind it.
#[derive(Debug, Drop)]
pub struct Token {
    pub kind: Kind,
    pub start: usize,
    pub end: usize,
}
