//! Whether two texts would touch as one word.
ghost use Rattle.std.specs.Prelude.{◌≡◌, ◌++◌, ◌&&◌, OnOk};
ghost use Rattle.vg_grammar.specs.Lexeme.{begins_word, is_word_byte};
ghost use Rattle.vg_grammar.specs.Line.{ends_word};

/// A letter, a digit, `_`, `.`, `+`, `-`, or a byte above 127.
#[inline(always)]
fn is_word_byte(byte: u8) -> bool
    ensures { result ≡ is_word_byte byte }
{
    match byte {
        b'a'..=b'z' | b'A'..=b'Z' | b'0'..=b'9' | b'_' | b'.' | b'+' | b'-' => true,
        _ => byte > 127,
    }
}

/// Whether a text begins with a byte of a word.
fn begins_word(text: &[u8]) -> bool
    ensures { result ≡ begins_word text.now }
{
    match text {
        [] => false,
        [first, ..] => is_word_byte(*first),
    }
}

/// Whether a text ends with a byte of a word.
fn ends_word(text: &[u8]) -> bool
    ensures { result ≡ ends_word text.now }
{
    match text.split_last() {
        Some((last, _)) => is_word_byte(*last),
        None => false,
    }
}

/// Whether a text ends with a byte of a word, and the one behind it begins with one.
pub(crate) fn do_touch(front: &[u8], back: &[u8]) -> bool
    ensures { result ≡ (ends_word front.now && begins_word back.now) }
{
    ends_word(front) && begins_word(back)
}
