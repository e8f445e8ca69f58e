//! Setting a field of a word.
ghost use Rattle.std.specs.Prelude.{◌≡◌, ◌+◌, ◌-◌, ◌<◌, ◌≤◌, ◌^◌, IsTrue};
ghost use Rattle.vg_isa.specs.Accepted.{is_isa};
ghost use Rattle.vg_isa.specs.Declaration.{are_in_word, bits_of, has_field, ranges_of};
ghost use Rattle.vg_format.specs.Replaced.{with_range, with_ranges};
ghost use Rattle.vg_format.specs.Setting.{SetsField};

use vg_bits::Bits;
use vg_isa::{FieldId, Isa};

/// The word with the bits of a range replaced.
#[inline(always)]
fn with_range(word: u128, high: u8, low: u8, bits: u128) -> u128
    requires order { low ≤ high }
    requires high { high < 64 }
    requires word { word < 2 ^ 64 }
    requires bits { bits < 2 ^ (high + 1 - low) }
    ensures { result ≡ with_range (high, low) word bits }
{
    let upper = ((word >> (high + 1)) << (high + 1 - low)) | bits;
    (upper << low) | (word & ((1 << low) - 1))
}

/// The word with the bits of more ranges replaced by those of a value.
#[inline(never)]
fn with_ranges(word: u128, ranges: &[(u8, u8)], value: Bits) -> u128
    requires within { IsTrue (are_in_word 64 ranges.now) }
    requires word { word < 2 ^ 64 }
    requires value { value.width ≡ bits_of ranges.now }
    ensures { result ≡ with_ranges ranges.now word value.number }
{
    let mut changed = word;
    let mut left = value.width().bits();
    for (high, low) in ranges {
        let below = left - (*high + 1 - *low);
        let bits = value.slice(left - 1, below).value();
        changed = with_range(changed, *high, *low, bits);
        left = below;
    }
    changed
}

/// The word with the bits of a field's ranges replaced by those of a value.
#[inline(always)]
fn number_with(word: u128, ranges: &[(u8, u8)], value: Bits) -> u128
    requires within { IsTrue (are_in_word 64 ranges.now) }
    requires word { word < 2 ^ 64 }
    requires value { value.width ≡ bits_of ranges.now }
    ensures { result ≡ with_ranges ranges.now word value.number }
{
    match ranges {
        [(high, low)] => with_range(word, *high, *low, value.value()),
        _ => with_ranges(word, ranges, value),
    }
}

/// The ranges of a field of this description.
#[inline(always)]
pub(crate) fn field_ranges(isa: &Isa, f: FieldId) -> &[(u8, u8)]
    requires { IsTrue (has_field isa.now f) }
    ensures ranges { result.now ≡ ranges_of isa.now f }
    ensures typed { IsTrue (is_isa isa.now) }
{
    let parts = isa.parts();
    match parts.formats.get(f.format.0 as usize) {
        None => unreachable!(),
        Some(format) => match format.fields.get(f.index as usize) {
            None => unreachable!(),
            Some(field) => field.ranges.as_slice(),
        },
    }
}

/// The word with a field set, by its formula.
#[inline(always)]
pub(crate) fn set_field(isa: &Isa, f: FieldId, word: Bits, value: Bits) -> Bits
    requires word { word.width ≡ isa.now.word }
    requires field { IsTrue (has_field isa.now f) }
    requires value { value.width ≡ bits_of (ranges_of isa.now f) }
    ensures { result ≡ record { width = word.width; number = with_ranges (ranges_of isa.now f) word.number value.number } }
{
    let ranges = field_ranges(isa, f);
    Bits::of(word.width(), number_with(word.value(), ranges, value))
}

/// The word with a field set to a value of its width, and every other bit as it was.
///
/// The word has the width of the description's formats.
#[inline(always)]
pub fn with_field(isa: &Isa, f: FieldId, word: Bits, v: Bits) -> Bits
    requires word { word.width ≡ isa.now.word }
    requires field { IsTrue (has_field isa.now f) }
    requires value { v.width ≡ bits_of (ranges_of isa.now f) }
    ensures { SetsField isa.now f word v result }
{
    // for the prover alone: the description keeps its rules, and the value its width
    let _ = isa.parts();
    let _ = v.value();
    set_field(isa, f, word, v)
}
