//! The types of fields.

ghost use Rattle.std.specs.Prelude.{◌≡◌, Some, None};
ghost use Rattle.vg_inline.specs.Context.{constants_in};
ghost use Rattle.vg_type.specs.Scope.{high_of as high_worth, low_of as low_worth, low_or, field_type as field_type_of};
ghost use Rattle.vg_type.specs.Fields.{distance as distance_of, bits_with};

use crate::ValueType;
use crate::operator::bits_type;
use sqlite_items::Boxed;
use vg_ast::{Expr, Field, Range};
use vg_inline::{Context, worth_of};
use vg_whole::Worth;

/// How far one bit is from another.
fn distance(high: Worth, low: Worth) -> Option<u128>
    ensures { result ≡ distance_of high low }
{
    match (high, low) {
        (Worth::Whole(high), Worth::Whole(low)) => {
            if low <= high {
                Some(high - low)
            } else {
                Some(low - high)
            }
        }
        _ => None,
    }
}

/// The low bit of a range with this high one.
pub fn low_of(high: Worth, low: &Option<Boxed<Expr>>, context: &Context) -> Worth
    ensures { result ≡ low_or (constants_in context.now) high low.now }
{
    match low {
        None => high,
        Some(low) => worth_of(low.get(), context),
    }
}

/// How many bits a range names beside one, if that is known.
fn span(range: &Range, context: &Context) -> Option<u128>
    ensures { result ≡ distance_of (high_worth (constants_in context.now) range.now) (low_worth (constants_in context.now) range.now) }
{
    let high = worth_of(range.high.get(), context);
    distance(high, low_of(high, &range.low, context))
}

/// The type of the bits that ranges name.
fn ranges_type(ranges: &[Range], context: &Context) -> Option<ValueType>
    ensures { result ≡ bits_with (constants_in context.now) 0 ranges.now }
{
    let mut bits: u128 = 0;
    for range in ranges {
        match span(range, context) {
            None => return None,
            Some(more) => {
                if more >= 128 {
                    return None;
                }
                if bits + more >= 128 {
                    return None;
                }
                bits = bits + more + 1;
            }
        }
    }
    bits_type(bits)
}

/// The type of a field, for the bits that its ranges name.
#[tactic(auto, using(crate::proofs::FieldLemmas::from_nothing))]
pub fn field_type(field: &Field, context: &Context) -> Option<ValueType>
    ensures { result ≡ field_type_of (constants_in context.now) field.now }
{
    ranges_type(field.ranges.as_slice(), context)
}
