//! The words of the grammar.

ghost use Rattle.std.specs.Prelude.{◌≡◌};
ghost use Rattle.vg_irparse.specs.Words.{entry_of, integer_words};

use crate::table::entry_of;

const INTEGERS: [(&[u8], u8); 5] = [
    (b"i1", 1),
    (b"i8", 8),
    (b"i16", 16),
    (b"i32", 32),
    (b"i64", 64),
];

/// The width of an integer type.
pub fn integer_width(text: &[u8]) -> Option<u8>
    ensures { result ≡ entry_of integer_words text.now }
{
    entry_of(&INTEGERS, text)
}
