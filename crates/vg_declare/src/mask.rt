//! Sets of the bits of a word, as numbers.

ghost use Rattle.std.specs.Prelude.{◌≡◌, ◌<◌, ◌≤◌, ◌∷◌, [], List, true};
ghost use Rattle.std.specs.List.{list_any};
ghost use Rattle.vg_declare.specs.FieldCover.{are_named, meet};
ghost use Rattle.vg_declare.specs.Mask.{Names, is_span};

use crate::span::Span;

/// The bits of a word of this width that a span names.
pub fn mask_of(span: Span, width: u128) -> u128
    requires width { width ≤ 64 }
    requires span { is_span span ≡ true }
    ensures { Names width result (span ∷ []) }
{
    if span.low >= width {
        return 0;
    }
    let above = span.high.min(width - 1) + 1;
    (1 << above) - (1 << span.low)
}

/// Whether a span of a word names a bit that is named already.
pub fn is_met(named: u128, span: Span, width: u128) -> bool
    requires width { width ≤ 64 }
    requires span { is_span span ≡ true }
    requires within { span.high < width }
    ensures { (front : List Span) → Names width named front → result ≡ list_any (meet span) front }
{
    named & mask_of(span, width) != 0
}

/// Whether all bits of a word are named.
pub fn is_full(named: u128, width: u128) -> bool
    requires { width ≤ 64 }
    ensures { (spans : List Span) → Names width named spans → result ≡ are_named width spans }
{
    named == (1 << width) - 1
}
