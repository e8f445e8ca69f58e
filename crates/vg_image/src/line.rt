//! The parts of single lines.
ghost use Rattle.std.specs.Prelude.{◌≡◌, ◌≤◌, ◌*◌, ◌/◌, ◌<◌, ◌^◌, ◌++◌};
ghost use Rattle.std.specs.List.{list_all};
ghost use Rattle.std.specs.Option.{option_map};
ghost use Rattle.vg_image.specs.Lines;
ghost use Rattle.vg_image.specs.Reader;
ghost use Rattle.vg_image.specs.Spelling;

use crate::image::Symbol;
use crate::refusal::Refusal;
use sqlite_items::Items;
use std::alloc::Global;
use vg_text::number::hexadecimal_at;
use vg_text::piece::{line_at, rest_after};

/// The first line of a text that isn't empty, and what follows it.
pub(crate) fn line_split(text: &[u8]) -> (&[u8], &[u8])
    ensures { (result.0.now, result.1.now) ≡ Reader.line_split text.now }
{
    match line_at(text) {
        Some(split) => split,
        None => (text, b""),
    }
}

/// The last byte of a text is a line feed.
pub(crate) fn ends_with_feed(text: &[u8]) -> bool
    ensures { result ≡ Lines.ends_with_feed text.now }
{
    match text.split_last() {
        Some((last, _)) => *last == b'\n',
        None => false,
    }
}

/// The number that is all of a text, in so many digits.
#[tactic(auto, unfolding(crate::specs::Reader::number_of))]
pub(crate) fn number_of(digits: u8, text: &[u8]) -> Option<u64>
    requires { digits ≤ 16 }
    ensures { result ≡ Reader.number_of digits text.now }
{
    let (number, rest) = hexadecimal_at(text, digits)?;
    if rest.is_empty() { Some(number) } else { None }
}

/// The address of so many digits behind a word and `0x`, which is all of a line.
#[tactic(auto, unfolding(crate::specs::Reader::address_of))]
pub(crate) fn address_of(word: &[u8], digits: u8, line: &[u8]) -> Option<u64>
    requires { digits ≤ 16 }
    ensures { result ≡ Reader.address_of word.now digits line.now }
{
    let rest = rest_after(word, line)?;
    let rest = rest_after(b"0x", rest)?;
    number_of(digits, rest)
}

/// Reads so many bytes of two digits each, and adds them.
pub(crate) fn push_bytes<'a>(
    bytes: &mut Items<u8>,
    count: usize,
    text: &'a [u8],
) -> Result<&'a [u8], Refusal>
    ensures { Reader.Gives (λ rest. (bytes.new, rest.now)) result
        (Reader.with_front bytes.old (Reader.bytes_at count text.now)) }
{
    let mut rest = text;
    for _ in 0..count {
        let Some((byte, behind)) = hexadecimal_at(rest, 2) else {
            return Err(Refusal::Wrong);
        };
        bytes.push(byte as u8)?;
        rest = behind;
    }
    Ok(rest)
}

/// The symbol whose name stands in front of its address of so many digits.
#[tactic(auto, unfolding(crate::specs::Reader::symbol_of))]
pub(crate) fn symbol_of(alloc: Global, digits: u8, text: &[u8]) -> Result<Symbol, Refusal>
    requires { digits ≤ 16 }
    ensures { Reader.Gives (λ symbol. symbol) result (Reader.symbol_of digits text.now) }
{
    let (name, back) = text.split_at(text.len().saturating_sub(usize::from(digits) + 3));
    if !is_word(name) {
        return Err(Refusal::Wrong);
    }
    let at = address_of(b" ", digits, back).ok_or(Refusal::Wrong)?;
    let name = Items::from_slice(alloc, name)?;
    Ok(Symbol { name, at })
}

/// One or more bytes of a word.
fn is_word(name: &[u8]) -> bool
    ensures { result ≡ Spelling.is_word name.now }
{
    !name.is_empty() && are_word_bytes(name)
}

fn are_word_bytes(name: &[u8]) -> bool
    ensures { result ≡ list_all Spelling.is_word_byte name.now }
{
    name.iter().all(|byte| is_word_byte(*byte))
}

/// A letter, a digit, `_`, `.`, `+`, `-`, or a byte above 127.
#[tactic(auto, unfolding(crate::specs::Spelling::is_word_byte))]
fn is_word_byte(byte: u8) -> bool
    ensures { result ≡ Spelling.is_word_byte byte }
{
    match byte {
        b'0'..=b'9' | b'A'..=b'Z' | b'a'..=b'z' | b'_' | b'.' | b'+' | b'-' => true,
        _ => byte > 127,
    }
}
