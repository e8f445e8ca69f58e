ghost use Rattle.std.specs.Prelude.{◌≡◌, IfOk, true, ◌<◌, ◌+◌, ◌^◌};
ghost use Rattle.std.specs.Str.{encode_utf8_all, all_scalars};
ghost use Rattle.vg_tok.specs.Lexing.{AreDecoded, byte_len};
ghost use Rattle.vg_tok.specs.Decode.{IsValidFront};

use std::alloc::{AllocError, Global};
use std::str;

fn characters_of(alloc: Global, text: &str) -> Result<Vec<char>, AllocError>
    ensures scalars { IfOk result (λ v. all_scalars v.items ≡ true) }
    ensures whole { IfOk result (λ v. encode_utf8_all v.items ≡ text.now) }
{
    text.chars().collect(alloc)
}

/// The longest text at the front of the bytes.
fn valid_front(bytes: &[u8]) -> &str
    ensures { IsValidFront bytes.now result.now }
{
    match str::from_utf8(bytes) {
        Ok(text) => text,
        Err(error) => match str::from_utf8(&bytes[..error.valid_up_to()]) {
            Ok(text) => text,
            Err(_) => unreachable!(),
        },
    }
}

/// The characters at the front of the bytes, and the bytes behind them, which begin with no character.
#[tactic(auto, using(crate::proofs::Decoding::decoded_steps))]
pub(crate) fn decoded(alloc: Global, bytes: &[u8]) -> Result<(Vec<char>, &[u8]), AllocError>
    ensures decoded { IfOk result (λ found. AreDecoded bytes.now found.0.items found.1.now) }
    ensures fits { IfOk result (λ found. byte_len found.0.items < 2 ^ 64) }
{
    let front = valid_front(bytes);
    let characters = characters_of(alloc, front)?;
    Ok((characters, &bytes[front.len()..]))
}

#[tactic(auto, using(crate::proofs::Steps::byte_steps))]
/// How many bytes the characters take.
pub(crate) fn byte_len(text: &[char]) -> usize
    requires { byte_len text.now < 2 ^ 64 }
    ensures { result ≡ byte_len text.now }
{
    let mut len = 0;
    for c in text {
        len += c.len_utf8();
    }
    len
}
