//! The code word at an address.
ghost use Rattle.std.specs.Prelude.{◌≡◌, ◌⊎◌, ◌%◌, ◌/◌, if◌then◌else◌, nat_eq, IfSome, IsTrue, Some, None};
ghost use Rattle.std.specs.Option.{option_map};
ghost use Rattle.vg_image.specs.Step.{word_at as code_word_at};
ghost use Rattle.vg_iss.specs.Kept.{are_words};

use vg_bits::Bits;
use vg_image::Image;
use vg_isa::Isa;

/// How many words of 2, 4 or 8 bytes a distance has; None where it isn't of whole words.
#[inline(always)]
fn words_in(distance: u64, bytes: u8) -> Option<u64>
    requires { (bytes ≡ 2) ⊎ (bytes ≡ 4) ⊎ (bytes ≡ 8) }
    ensures { result ≡ (if nat_eq (distance % bytes) 0 then Some (distance / bytes) else None) }
{
    let (rest, words) = match bytes {
        2 => (distance % 2, distance / 2),
        4 => (distance % 4, distance / 4),
        _ => (distance % 8, distance / 8),
    };
    if rest == 0 { Some(words) } else { None }
}

/// The code word at an address.
#[inline(always)]
fn code_at(isa: &Isa, image: &Image, at: u64) -> Option<u64>
    ensures { result ≡ code_word_at isa.now image.now at }
{
    let bytes = isa.word().bits() / 8;
    if at < image.base {
        return None;
    }
    match words_in(at - image.base, bytes) {
        None => None,
        Some(k) => image.code.get(k as usize).copied(),
    }
}

/// The code word at an address, as a bit value.
#[inline(always)]
#[tactic(auto, using(crate::proofs::Words::word_below))]
pub fn word_at(isa: &Isa, image: &Image, at: u64) -> Option<Bits>
    requires { IsTrue (are_words isa.now.word image.now.code) }
    ensures number { option_map (λ word. word.number) result ≡ code_word_at isa.now image.now at }
    ensures width { IfSome result (λ word. word.width ≡ isa.now.word) }
{
    match code_at(isa, image, at) {
        None => None,
        Some(code) => Some(Bits::of(isa.word(), u128::from(code))),
    }
}
