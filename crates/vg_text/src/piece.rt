//! Pieces of a text: what follows a prefix, and the first line.

ghost use Rattle.std.specs.Prelude.{◌≡◌, ◌++◌, ◌∷◌, ◌↔◌, ℕ, List, Some, None, IsTrue, OnOk, OnErr};
ghost use Rattle.std.specs.Option.{option_map, option_copied};
ghost use Rattle.vg_text.specs.Piece;

use std::alloc::AllocError;

/// Writes the bytes at the end.
pub fn push_bytes(out: &mut Vec<u8>, bytes: &[u8]) -> Result<(), AllocError>
    ensures ok { OnOk result (out.new.items ≡ out.old.items ++ bytes.now) }
    ensures err { OnErr result (out.new.items ≡ out.old.items) }
{
    out.extend_from_slice(bytes)
}

/// What follows the prefix, where the text begins with it.
pub fn rest_after<'a>(prefix: &[u8], text: &'a [u8]) -> Option<&'a [u8]>
    ensures { option_copied result ≡ Piece.rest_after prefix.now text.now }
{
    text.strip_prefix(prefix)
}

/// The bytes before the first line feed, and those behind it.
pub fn line_at(text: &[u8]) -> Option<(&[u8], &[u8])>
    ensures { option_map (λ split. (split.0.now, split.1.now)) result ≡ Piece.line_at text.now }
{
    for (at, byte) in text.iter().enumerate() {
        if *byte == b'\n' {
            return Some((&text[..at], &text[at + 1..]));
        }
    }
    None
}

/// A text is the prefix and the rest exactly where the rest follows the prefix in it.
pub fn prefix_reads_back()
    ensures { (prefix text rest : List ℕ) → (Piece.rest_after prefix text ≡ Some rest) ↔ (text ≡ prefix ++ rest) }
{}

/// A text is a line, a line feed and the rest exactly where the line and the rest are found in it, for a
/// line with no line feed.
pub fn line_reads_back()
    ensures found { (text line rest : List ℕ) → (Piece.line_at text ≡ Some (line, rest)) ↔ (IsTrue (Piece.lacks 10 line) × (text ≡ line ++ 10 ∷ rest)) }
    ensures none { (text : List ℕ) → (Piece.line_at text ≡ None) ↔ IsTrue (Piece.lacks 10 text) }
{}
