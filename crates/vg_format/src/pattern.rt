//! What an encoding fixes of a word, bit by bit.
ghost use Rattle.std.specs.Prelude.{◌≡◌, ◌<◌, ◌≤◌, ◌^◌, ◌-◌, ◌+◌, IsTrue, nat_eq, bit_and};
ghost use Rattle.std.specs.List.{list_all, list_any};
ghost use Rattle.vg_isa.specs.declared.ids.FormatId.{FormatId as Format};
ghost use Rattle.vg_isa.specs.Accepted.{is_fixed, is_instr, names_bit};
ghost use Rattle.vg_isa.specs.Declaration.{are_in_word};
ghost use Rattle.vg_format.specs.Encoding.{is_bit_of_any};
ghost use Rattle.vg_format.specs.Pattern.{IsPatternOf, HasOnes};

use crate::encoding::set_fields;
use crate::setting::field_ranges;
use vg_bits::Bits;
use vg_isa::{FieldId, FormatId, Instr, Isa};

/// A mask and a value: the bits of a word that are fixed, and what they are.
#[derive(Clone, Copy, PartialEq, Eq, Debug)]
pub struct Pattern {
    /// The bits that are fixed.
    pub mask: u64,
    /// Their values; 0 at every other bit.
    pub value: u64,
}

/// The bits of a range.
fn range_mask(high: u8, low: u8) -> u64
    requires order { low ≤ high }
    requires high { high < 64 }
    ensures { HasOnes (λ k. names_bit k (high, low)) result }
{
    (u64::MAX >> (63 - (high - low))) << low
}

/// The bits of ranges.
fn ranges_mask(ranges: &[(u8, u8)]) -> u64
    requires { IsTrue (are_in_word 64 ranges.now) }
    ensures { HasOnes (λ k. list_any (names_bit k) ranges.now) result }
{
    let mut mask = 0;
    for (high, low) in ranges {
        mask |= range_mask(*high, *low);
    }
    mask
}

/// The bits of fields of a format.
fn fields_mask(isa: &Isa, format: FormatId, fields: &[(FieldId, Bits)]) -> u64
    requires { IsTrue (list_all (is_fixed isa.now format) fields.now) }
    ensures { HasOnes (is_bit_of_any isa.now fields.now) result }
{
    let mut mask = 0;
    for (id, _) in fields {
        mask |= ranges_mask(field_ranges(isa, *id));
    }
    mask
}

/// The pattern of an instruction of this description.
pub fn pattern_of(isa: &Isa, instr: &Instr) -> Pattern
    requires { IsTrue (is_instr isa.now instr.now) }
    ensures { IsPatternOf isa.now instr.now result }
{
    // for the prover alone: the description keeps its rules
    let _ = isa.parts();
    let fixed = instr.fixed.as_slice();
    let value = set_fields(isa, instr.format, fixed, Bits::of(isa.word(), 0));
    Pattern {
        mask: fields_mask(isa, instr.format, fixed),
        value: value.value() as u64,
    }
}
