//! What is found of an expression by what is found of its parts.

ghost use Rattle.std.specs.Prelude.{◌≡◌};
ghost use Rattle.vg_names.specs.First.{first_of};
ghost use Rattle.vg_type.specs.Judged.{told as told_at, type_found};
ghost use Rattle.vg_type.specs.Expression.{access_type as access_type_of};
ghost use Rattle.vg_type.specs.Found.{sound_found, sort_found, own_width, settled_found, first_unfit, number_width as number_width_of, parentheses_found, unary_found, binary_range as binary_range_of, typed_binary_found, binary_found, cast_found, slice_found, join_found, if_range as if_range_of, if_found, access_range as access_range_of, access_found, let_found};

use crate::judgement::Judgement;
use crate::operator::{
    binary_type, bytes_type, cast_type, choice_type, is_too_long, is_too_wide, is_wrong_size,
    join_type, leaves, operand_type, slice_type, unary_type,
};
use crate::sort::{common_type, is_untyped, is_valueless, may_be, worth_of};
use crate::value_type::fits;
use crate::{Sort, ValueType};
use vg_ast::{BinaryOperator, UnaryOperator};
use vg_whole::{Worth, worth_of_binary};

/// An expression in which nothing can be broken.
pub fn sound(start: usize, sort: Sort) -> Judgement
    ensures { result ≡ sound_found start sort }
{
    Judgement {
        start,
        sort,
        width: None,
        range: None,
    }
}

/// A place, where a test holds.
pub fn told(test: bool, at: usize) -> Option<usize>
    ensures { result ≡ first_of (told_at test at) }
{
    if test { Some(at) } else { None }
}

fn sort_of(blocked: bool, range: Option<usize>, has: Option<ValueType>) -> Sort
    ensures { result ≡ sort_found blocked range has }
{
    match (blocked, range, has) {
        (false, None, Some(has)) => Sort::Typed { has },
        _ => Sort::Untyped,
    }
}

fn own_place(
    start: usize,
    blocked: bool,
    range: Option<usize>,
    has: Option<ValueType>,
) -> Option<usize>
    ensures { result ≡ own_width start blocked range has }
{
    match (blocked, range, has) {
        (false, None, None) => Some(start),
        _ => None,
    }
}

/// An expression of this type, if it has one, with the first places in its parts.
pub fn settled(
    start: usize,
    blocked: bool,
    width: Option<usize>,
    range: Option<usize>,
    has: Option<ValueType>,
) -> Judgement
    ensures { result ≡ settled_found start blocked width range has }
{
    Judgement {
        start,
        sort: sort_of(blocked, range, has),
        width: own_place(start, blocked, range, has).or(width),
        range,
    }
}

/// The place of a whole number that doesn't fit a type.
pub fn unfit(has: Option<ValueType>, found: Judgement) -> Option<usize>
    ensures { result ≡ first_unfit has found }
{
    match (has, found.sort) {
        (Some(has), Sort::Whole { value }) => told(!fits(value, has), found.start),
        _ => None,
    }
}

fn type_place(found: Judgement) -> Option<usize>
    ensures { result ≡ first_of (type_found found.start found.sort) }
{
    match found.sort {
        Sort::Typed { .. } => Some(found.start),
        _ => None,
    }
}

/// The first place at which types are broken in an expression where a whole number is asked for.
pub fn number_width(found: Judgement) -> Option<usize>
    ensures { result ≡ number_width_of found }
{
    found.width.or(type_place(found))
}

pub fn parentheses(at: usize, inner: Judgement) -> Judgement
    ensures { result ≡ parentheses_found at inner }
{
    Judgement {
        start: at,
        sort: inner.sort,
        width: inner.width,
        range: inner.range,
    }
}

pub fn unary(operator: UnaryOperator, at: usize, operand: Judgement) -> Judgement
    ensures { result ≡ unary_found operator at operand }
{
    settled(
        at,
        is_untyped(operand.sort),
        operand.width,
        operand.range,
        unary_type(operator, operand.sort),
    )
}

fn binary_range(
    operator: BinaryOperator,
    at: usize,
    left: Judgement,
    right: Judgement,
) -> Option<usize>
    ensures { result ≡ binary_range_of operator at left right }
{
    let has = operand_type(operator, left.sort, right.sort);
    let is_wide = is_too_wide(operator, common_type(left.sort, right.sort));
    left.range
        .or(unfit(has, left))
        .or(told(is_wide, at))
        .or(right.range)
        .or(unfit(has, right))
}

fn typed_binary(operator: BinaryOperator, at: usize, left: Judgement, right: Judgement) -> Judgement
    ensures { result ≡ typed_binary_found operator at left right }
{
    settled(
        left.start,
        is_untyped(left.sort) || is_untyped(right.sort),
        left.width.or(right.width),
        binary_range(operator, at, left, right),
        binary_type(operator, left.sort, right.sort),
    )
}

#[tactic(auto, unfolding(crate::specs::Found::binary_found))]
pub fn binary(operator: BinaryOperator, at: usize, left: Judgement, right: Judgement) -> Judgement
    ensures { result ≡ binary_found operator at left right }
{
    match worth_of_binary(operator, worth_of(left.sort), worth_of(right.sort)) {
        Worth::Whole(value) => sound(left.start, Sort::Whole { value }),
        Worth::NoValue => sound(left.start, Sort::NoValue),
        Worth::Typed => typed_binary(operator, at, left, right),
    }
}

/// A cast to a type, by whether that is blocked and by the first places in it.
#[tactic(auto, unfolding(crate::specs::Found::cast_found))]
pub fn cast(
    operand: Judgement,
    blocked: bool,
    target: Option<ValueType>,
    width: Option<usize>,
    range: Option<usize>,
) -> Judgement
    ensures { result ≡ cast_found operand blocked target width range }
{
    settled(
        operand.start,
        is_untyped(operand.sort) || blocked,
        operand.width.or(width),
        operand.range.or(unfit(target, operand)).or(range),
        cast_type(target, operand.sort),
    )
}

#[tactic(auto, unfolding(crate::specs::Found::slice_found))]
pub fn slice(operand: Judgement, at: usize, high: Judgement, low: Judgement) -> Judgement
    ensures { result ≡ slice_found operand at high low }
{
    let is_outside = leaves(operand.sort, high.sort, low.sort);
    settled(
        operand.start,
        is_untyped(operand.sort) || is_valueless(high.sort) || is_valueless(low.sort),
        operand.width.or(number_width(high)).or(number_width(low)),
        operand
            .range
            .or(told(is_outside, at))
            .or(high.range)
            .or(low.range),
        slice_type(operand.sort, high.sort, low.sort),
    )
}

#[tactic(auto, unfolding(crate::specs::Found::join_found))]
pub fn join(at: usize, high: Judgement, low: Judgement) -> Judgement
    ensures { result ≡ join_found at high low }
{
    settled(
        at,
        is_untyped(high.sort) || is_untyped(low.sort),
        high.width.or(low.width),
        told(is_too_long(high.sort, low.sort), at)
            .or(high.range)
            .or(low.range),
        join_type(high.sort, low.sort),
    )
}

fn if_range(
    has: Option<ValueType>,
    condition: Judgement,
    one: Judgement,
    other: Judgement,
) -> Option<usize>
    ensures { result ≡ if_range_of has condition one other }
{
    condition
        .range
        .or(one.range)
        .or(unfit(has, one))
        .or(other.range)
        .or(unfit(has, other))
}

/// A conditional.
#[tactic(auto, unfolding(crate::specs::Found::if_found))]
pub fn choice(at: usize, condition: Judgement, one: Judgement, other: Judgement) -> Judgement
    ensures { result ≡ if_found at condition one other }
{
    let has = common_type(one.sort, other.sort);
    settled(
        at,
        is_untyped(condition.sort) || is_untyped(one.sort) || is_untyped(other.sort),
        condition.width.or(one.width).or(other.width),
        if_range(has, condition, one, other),
        choice_type(condition.sort, one.sort, other.sort),
    )
}

fn access_type(has: Option<ValueType>, size: Sort, address: Sort) -> Option<ValueType>
    ensures { result ≡ access_type_of has size address }
{
    match has {
        None => None,
        Some(has) => {
            if may_be(has, address) {
                bytes_type(size)
            } else {
                None
            }
        }
    }
}

fn access_range(
    has: Option<ValueType>,
    at: usize,
    size: Judgement,
    address: Judgement,
) -> Option<usize>
    ensures { result ≡ access_range_of has at size address }
{
    told(is_wrong_size(size.sort), at)
        .or(size.range)
        .or(address.range)
        .or(unfit(has, address))
}

/// An access to memory, by whether there is such a memory, and the type of addresses.
#[tactic(auto, unfolding(crate::specs::Found::access_found))]
pub fn access(
    is_memory: bool,
    has: Option<ValueType>,
    start: usize,
    at: usize,
    size: Judgement,
    address: Judgement,
) -> Judgement
    ensures { result ≡ access_found is_memory has start at size address }
{
    settled(
        start,
        is_valueless(size.sort) || is_untyped(address.sort) || !is_memory || has.is_none(),
        number_width(size).or(address.width),
        access_range(has, at, size, address),
        access_type(has, size.sort, address.sort),
    )
}

/// A `let`, by what it binds and its body.
#[tactic(auto, unfolding(crate::specs::Found::let_found))]
pub fn binding(at: usize, bound: Judgement, body: Judgement) -> Judgement
    ensures { result ≡ let_found at bound body }
{
    Judgement {
        start: at,
        sort: if is_untyped(bound.sort) {
            Sort::Untyped
        } else {
            body.sort
        },
        width: bound.width.or(body.width),
        range: bound.range.or(body.range),
    }
}
