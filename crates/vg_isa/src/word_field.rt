ghost use Rattle.std.specs.Prelude.{◌≡◌, ◌+◌, ◌*◌, ◌<◌, ◌≤◌, ◌^◌, IsTrue, length};
ghost use Rattle.vg_isa.specs.Declaration.{field_of, has_field, are_in_word, bits_in, bits_of};

use crate::ids::FieldId;
use crate::isa::Isa;
use vg_bits::Bits;

/// Bits with those of the word in more ranges below them.
#[inline(never)]
fn join_ranges(bits: Bits, ranges: &[(u8, u8)], word: Bits) -> Bits
    requires fits { bits.width + bits_of ranges.now ≤ 128 }
    requires ranges { IsTrue (are_in_word word.width ranges.now) }
    ensures { result ≡ record {
      width = bits.width + bits_of ranges.now;
      number = bits.number * 2 ^ bits_of ranges.now + bits_in ranges.now word.number;
    } }
{
    let mut joined = bits;
    for (high, low) in ranges {
        joined = joined.join(word.slice(*high, *low));
    }
    joined
}

/// The bits of the word in ranges, of which there is at least one.
#[inline(always)]
fn bits_at(ranges: &[(u8, u8)], word: Bits) -> Bits
    requires some { 0 < length ranges.now }
    requires fits { bits_of ranges.now ≤ 128 }
    requires ranges { IsTrue (are_in_word word.width ranges.now) }
    ensures { result ≡ record { width = bits_of ranges.now; number = bits_in ranges.now word.number } }
{
    match ranges {
        [] => unreachable!(),
        [(high, low)] => word.slice(*high, *low),
        [(high, low), lower @ ..] => join_ranges(word.slice(*high, *low), lower, word),
    }
}

/// The field of a word.
///
/// The word has the width of the description's formats.
#[inline(always)]
pub fn field(isa: &Isa, f: FieldId, word: Bits) -> Bits
    requires word { word.width ≡ isa.now.word }
    requires field { IsTrue (has_field isa.now f) }
    ensures { result ≡ field_of isa.now f word.number }
{
    let parts = isa.parts();
    match parts.formats.get(f.format.0 as usize) {
        None => unreachable!(),
        Some(format) => match format.fields.get(f.index as usize) {
            None => unreachable!(),
            Some(field) => bits_at(field.ranges.as_slice(), word),
        },
    }
}
