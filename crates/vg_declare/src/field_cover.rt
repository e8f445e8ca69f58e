//! Formats whose ranges don't name each of their bits once.
#![tactic(auto, using(vg_names::proofs::FirstLemmas::first_steps))]

ghost use Rattle.std.specs.Prelude.{◌≡◌, ◌≤◌, ◌++◌, ◌∷◌, [], List, map, MatchOption, Some, None, true, false};
ghost use Rattle.std.specs.List.{list_all};
ghost use Rattle.vg_inline.specs.Context.{constants_in};
ghost use Rattle.vg_names.specs.First.{first_of};
ghost use Rattle.vg_type.specs.Scope.{declared_in};
ghost use Rattle.vg_type.specs.Setting.{setting_in};
ghost use Rattle.vg_declare.specs.FieldCover.{are_narrow, are_named, covers, ends_of as ends_written, format_covers, format_width as width_declared, is_narrow, is_wrong_field, is_wrong_range, item_covers, named_behind, runs_upwards as runs_up, span as span_of, spans_of, wrong_fields};
ghost use Rattle.vg_declare.specs.Mask.{Names, is_span};

use crate::mask::{is_full, is_met, mask_of};
use crate::span::Span;
use sqlite_items::Boxed;
use vg_ast::{Expr, Field, Item, Name, Range, TypeExpr};
use vg_inline::{Context, declared_type, worth_of};
use vg_tree::{value_or, width_or};
use vg_type::{Setting, low_of, width_in};

/// The high and the low bit of a range, as they are written.
fn ends_of(range: &Range, context: &Context) -> (u128, u128)
    ensures { result ≡ ends_written (constants_in context.now) range.now }
{
    let high = worth_of(range.high.get(), context);
    let low = low_of(high, &range.low, context);
    (value_or(high), value_or(low))
}

fn runs_upwards(ends: (u128, u128)) -> bool
    ensures { result ≡ runs_up ends }
{
    let (high, low) = ends;
    high < low
}

/// The bits of a range, whichever way it runs.
fn span(ends: (u128, u128)) -> Span
    ensures span { result ≡ span_of ends }
    ensures sorted { is_span result ≡ true }
{
    let (high, low) = ends;
    if high < low {
        return Span {
            high: low,
            low: high,
        };
    }
    Span { high, low }
}

/// The bits that are named with a range behind these, or none where the range is wrong there.
fn with_range(named: u128, ends: (u128, u128), width: u128) -> Option<u128>
    requires { width ≤ 64 }
    ensures { (front : List Span) → Names width named front
        → MatchOption result (is_wrong_range width front ends ≡ true) (λ more. (is_wrong_range width front ends ≡ false) × Names width more (span_of ends ∷ front)) }
{
    let bits = span(ends);
    if runs_upwards(ends) || bits.high >= width {
        return None;
    }
    if is_met(named, bits, width) {
        return None;
    }
    Some(named | mask_of(bits, width))
}

/// The bits that are named with a field's ranges behind these, or none where one of the ranges is wrong there.
fn with_ranges(named: u128, ranges: &[Range], width: u128, context: &Context) -> Option<u128>
    requires { width ≤ 64 }
    ensures { (front : List Span) → Names width named front
        → let all = map (ends_written (constants_in context.now)) ranges.now in
        MatchOption result (is_wrong_field width front all ≡ true) (λ more. (is_wrong_field width front all ≡ false) × Names width more (named_behind front all)) }
{
    let mut all = named;
    for range in ranges {
        match with_range(all, ends_of(range, context), width) {
            None => return None,
            Some(more) => all = more,
        }
    }
    Some(all)
}

/// The first field that is wrong.
fn first_wrong(fields: &[Field], width: u128, context: &Context) -> Option<usize>
    requires { width ≤ 64 }
    ensures { result ≡ first_of (wrong_fields (constants_in context.now) width [] fields.now) }
{
    let mut named = 0;
    for field in fields {
        match with_ranges(named, field.ranges.as_slice(), width, context) {
            None => return Some(field.name.at),
            Some(more) => named = more,
        }
    }
    None
}

/// The bits that are named with a field's ranges beside these, right or wrong.
fn beside(named: u128, ranges: &[Range], width: u128, context: &Context) -> u128
    requires { width ≤ 64 }
    ensures { (spans : List Span) → Names width named spans
        → Names width result (spans ++ map span_of (map (ends_written (constants_in context.now)) ranges.now)) }
{
    let mut all = named;
    for range in ranges {
        all = all | mask_of(span(ends_of(range, context)), width);
    }
    all
}

/// Whether each bit of a word of this width is named.
fn are_all_named(fields: &[Field], width: u128, context: &Context) -> bool
    requires { width ≤ 64 }
    ensures { result ≡ are_named width (spans_of (constants_in context.now) fields.now) }
{
    let mut named = 0;
    for field in fields {
        named = beside(named, field.ranges.as_slice(), width, context);
    }
    is_full(named, width)
}

/// A format's name, where a bit has no field, or else its first field that is wrong.
fn format_uncovered(name: &Name, width: u128, fields: &[Field], context: &Context) -> Option<usize>
    requires { width ≤ 64 }
    ensures { result ≡ first_of (format_covers (constants_in context.now) width name.now.at fields.now) }
{
    if are_all_named(fields, width, context) {
        first_wrong(fields, width, context)
    } else {
        Some(name.at)
    }
}

/// The declared width of a format.
fn format_width(declared: &TypeExpr<Boxed<Expr>>, setting: &Setting) -> u128
    ensures { result ≡ width_declared (setting_in setting.now.context.now) declared.now }
{
    width_or(width_in(declared_type(declared, setting.context)))
}

fn item_uncovered(item: &Item, setting: &Setting) -> Option<usize>
    requires { is_narrow (setting_in setting.now.context.now) item.now ≡ true }
    ensures { result ≡ first_of (item_covers (setting_in setting.now.context.now) item.now) }
{
    match item {
        Item::Format {
            name,
            declared,
            fields,
            ..
        } => format_uncovered(
            name,
            format_width(declared, setting),
            fields.as_slice(),
            setting.context,
        ),
        _ => None,
    }
}

/// The first place at which a format doesn't name each of its bits once, where no format is wider than 64 bits.
pub fn first_uncovered(setting: &Setting) -> Option<usize>
    requires { are_narrow (setting_in setting.now.context.now) ≡ true }
    ensures { result ≡ first_of (covers (setting_in setting.now.context.now)) }
{
    for item in setting.context.table.items {
        if let Some(at) = item_uncovered(item, setting) {
            return Some(at);
        }
    }
    None
}
