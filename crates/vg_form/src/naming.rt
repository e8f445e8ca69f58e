//! Characters of names, and bytes.

ghost use Rattle.std.specs.Prelude.{◌≡◌, IfOk, IsTrue, bytes_eq};
ghost use Rattle.vg_form.specs.Description.{is_ascii};

use sqlite_items::Items;
use std::alloc::{AllocError, Global};
use vg_isa::Text;

/// Whether the characters are these bytes.
pub(crate) fn is_named(characters: &[char], text: &[u8]) -> bool
    ensures { result ≡ bytes_eq characters.now text.now }
{
    let mut left = characters;
    let mut right = text;
    while let Some((character, characters)) = left.split_first() {
        let Some((byte, bytes)) = right.split_first() else {
            return false;
        };
        if *character != char::from(*byte) {
            return false;
        }
        left = characters;
        right = bytes;
    }
    right.is_empty()
}

pub(crate) fn is_ascii(name: &[char]) -> bool
    ensures { result ≡ is_ascii name.now }
{
    name.iter().all(|c| *c < '\u{80}')
}

/// The bytes of an ASCII name.
pub(crate) fn text_of(alloc: Global, name: &[char]) -> Result<Text, AllocError>
    requires { IsTrue (is_ascii name.now) }
    ensures { IfOk result (λ text. text ≡ name.now) }
{
    let mut text = Items::new(alloc);
    for c in name {
        text.push(*c as u8)?;
    }
    Ok(text)
}
