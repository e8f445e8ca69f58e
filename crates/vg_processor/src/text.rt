//! Names and texts in UTF-8.

ghost use Rattle.std.specs.Prelude.{◌≡◌, IfOk};
ghost use Rattle.std.specs.Str.{encode_utf8_all};

use sqlite_items::Items;
use std::alloc::{AllocError, Global};
use vg_isa::Text;

/// Characters in UTF-8.
#[tactic(auto, using(crate::proofs::LoopLemmas::encoded_more))]
pub(crate) fn text_of(alloc: Global, characters: &[char]) -> Result<Text, AllocError>
    ensures { IfOk result (λ text. text ≡ encode_utf8_all characters.now) }
{
    let mut text = String::new(alloc);
    for character in characters {
        text.push(*character)?;
    }
    Ok(Items::from_vec(text.into_bytes()))
}
