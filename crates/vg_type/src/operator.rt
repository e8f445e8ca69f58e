ghost use Rattle.std.specs.Prelude.{◌≡◌, ◌≤◌, ◌<◌, ◌+◌, ◌-◌};
ghost use Rattle.vg_type.specs.ValueType.{sized_type, bits_type as bits_of};
ghost use Rattle.vg_type.specs.Operator.{unary_type, is_shift, is_comparison, takes, doubled, result_of, operated, is_amount, shifted, binary_type, operand_type, is_too_wide, cast_type, is_above, leaves, cut_type, slice_type, join_type, is_too_long, is_size, is_wrong_size, bytes_type, is_bool, choice_type};

use crate::sort::common_type;
use crate::value_type::{sized_type, width_of};
use crate::{Sort, ValueType};
use vg_ast::{BinaryOperator, BitsKind, UnaryOperator};

/// `Bits<width>`, where that is a width.
pub fn bits_type(width: u128) -> Option<ValueType>
    ensures { result ≡ bits_of width }
{
    sized_type(BitsKind::Bits, width)
}

/// The type of an operator over one operand, if it has one.
pub fn unary_type(operator: UnaryOperator, operand: Sort) -> Option<ValueType>
    ensures { result ≡ unary_type operator operand }
{
    match (operator, operand) {
        (
            UnaryOperator::Complement | UnaryOperator::Negate,
            Sort::Typed {
                has: ValueType::Sized { kind, width },
            },
        ) => Some(ValueType::Sized { kind, width }),
        (
            UnaryOperator::Not,
            Sort::Typed {
                has: ValueType::Bool,
            },
        ) => Some(ValueType::Bool),
        _ => None,
    }
}

/// Whether an operator shifts its left operand by the right one.
pub fn is_shift(operator: BinaryOperator) -> bool
    ensures { result ≡ is_shift operator }
{
    match operator {
        BinaryOperator::ShiftLeft | BinaryOperator::ShiftRight => true,
        _ => false,
    }
}

fn is_comparison(operator: BinaryOperator) -> bool
    ensures { result ≡ is_comparison operator }
{
    match operator {
        BinaryOperator::Equal
        | BinaryOperator::NotEqual
        | BinaryOperator::Less
        | BinaryOperator::LessEqual
        | BinaryOperator::Greater
        | BinaryOperator::GreaterEqual => true,
        _ => false,
    }
}

/// Whether an operator takes operands of a type.
fn takes(operator: BinaryOperator, has: ValueType) -> bool
    ensures { result ≡ takes operator has }
{
    match has {
        ValueType::Sized { .. } => true,
        ValueType::Bool => match operator {
            BinaryOperator::And
            | BinaryOperator::Or
            | BinaryOperator::Xor
            | BinaryOperator::Equal
            | BinaryOperator::NotEqual => true,
            _ => false,
        },
    }
}

/// The type of double width, if there is one.
fn doubled(has: ValueType) -> Option<ValueType>
    ensures { result ≡ doubled has }
{
    match has {
        ValueType::Sized { kind, width } => sized_type(kind, 2 * width as u128),
        ValueType::Bool => None,
    }
}

/// What an operator gives that takes operands of this type.
fn result_of(operator: BinaryOperator, has: ValueType) -> Option<ValueType>
    ensures { result ≡ result_of operator has }
{
    if let BinaryOperator::MultiplyLong = operator {
        return doubled(has);
    }
    if is_comparison(operator) {
        return Some(ValueType::Bool);
    }
    Some(has)
}

fn operated(operator: BinaryOperator, has: Option<ValueType>) -> Option<ValueType>
    ensures { result ≡ operated operator has }
{
    match has {
        None => None,
        Some(has) => {
            if takes(operator, has) {
                result_of(operator, has)
            } else {
                None
            }
        }
    }
}

/// Whether a shift may be by this.
fn is_amount(sort: Sort) -> bool
    ensures { result ≡ is_amount sort }
{
    match sort {
        Sort::Whole { .. } | Sort::NoValue => true,
        Sort::Typed {
            has: ValueType::Sized {
                kind: BitsKind::Bits | BitsKind::UInt,
                ..
            },
        } => true,
        Sort::Typed { .. } | Sort::Untyped => false,
    }
}

fn shifted(left: Sort, right: Sort) -> Option<ValueType>
    ensures { result ≡ shifted left right }
{
    match left {
        Sort::Typed {
            has: ValueType::Sized { kind, width },
        } => {
            if is_amount(right) {
                Some(ValueType::Sized { kind, width })
            } else {
                None
            }
        }
        _ => None,
    }
}

/// The type of an operator over two operands, if it has one.
pub fn binary_type(operator: BinaryOperator, left: Sort, right: Sort) -> Option<ValueType>
    ensures { result ≡ binary_type operator left right }
{
    if is_shift(operator) {
        shifted(left, right)
    } else {
        operated(operator, common_type(left, right))
    }
}

/// The type that a whole number takes beside another operand.
pub fn operand_type(operator: BinaryOperator, left: Sort, right: Sort) -> Option<ValueType>
    ensures { result ≡ operand_type operator left right }
{
    if is_shift(operator) {
        None
    } else {
        common_type(left, right)
    }
}

/// Whether a product of double width over operands of this type is too wide.
pub fn is_too_wide(operator: BinaryOperator, has: Option<ValueType>) -> bool
    ensures { result ≡ is_too_wide operator has }
{
    match (operator, has) {
        (BinaryOperator::MultiplyLong, Some(ValueType::Sized { width, .. })) => width > 64,
        _ => false,
    }
}

/// The type of a cast to a type, if it has one.
pub fn cast_type(target: Option<ValueType>, operand: Sort) -> Option<ValueType>
    ensures { result ≡ cast_type target operand }
{
    match (target, operand) {
        (Some(ValueType::Bool), Sort::Typed { has }) => {
            if width_of(has) == 1 {
                Some(ValueType::Bool)
            } else {
                None
            }
        }
        (_, Sort::Untyped) => None,
        (target, _) => target,
    }
}

fn is_above(high: u128, operand: Sort) -> bool
    ensures { result ≡ is_above high operand }
{
    match operand {
        Sort::Typed {
            has: ValueType::Sized { width, .. },
        } => high >= width as u128,
        _ => false,
    }
}

/// Whether a slice leaves its operand, or its high bit is below its low one.
pub fn leaves(operand: Sort, high: Sort, low: Sort) -> bool
    ensures { result ≡ leaves operand high low }
{
    match (high, low) {
        (Sort::Whole { value: high }, Sort::Whole { value: low }) => {
            high < low || is_above(high, operand)
        }
        _ => false,
    }
}

/// The type of the bits of an operand of this width from high to low.
fn cut_type(width: u8, high: u128, low: u128) -> Option<ValueType>
    requires order { low ≤ high }
    requires within { high < width }
    ensures { result ≡ bits_of (high + 1 - low) }
{
    bits_type(high + 1 - low)
}

/// The type of a slice, if it has one.
pub fn slice_type(operand: Sort, high: Sort, low: Sort) -> Option<ValueType>
    ensures { result ≡ slice_type operand high low }
{
    match (operand, high, low) {
        (
            Sort::Typed {
                has: ValueType::Sized { width, .. },
            },
            Sort::Whole { value: high },
            Sort::Whole { value: low },
        ) => {
            if high < low || high >= width as u128 {
                return None;
            }
            cut_type(width, high, low)
        }
        _ => None,
    }
}

/// The type of a join, if it has one.
pub fn join_type(high: Sort, low: Sort) -> Option<ValueType>
    ensures { result ≡ join_type high low }
{
    match (high, low) {
        (
            Sort::Typed {
                has: ValueType::Sized { width: high, .. },
            },
            Sort::Typed {
                has: ValueType::Sized { width: low, .. },
            },
        ) => bits_type(high as u128 + low as u128),
        _ => None,
    }
}

/// Whether a join has more than 128 bits.
pub fn is_too_long(high: Sort, low: Sort) -> bool
    ensures { result ≡ is_too_long high low }
{
    match (high, low) {
        (
            Sort::Typed {
                has: ValueType::Sized { width: high, .. },
            },
            Sort::Typed {
                has: ValueType::Sized { width: low, .. },
            },
        ) => high as u32 + low as u32 > 128,
        _ => false,
    }
}

fn is_size(bytes: u128) -> bool
    ensures { result ≡ is_size bytes }
{
    bytes >= 1 && bytes <= 16
}

/// Whether an access is of a wrong number of bytes.
pub fn is_wrong_size(size: Sort) -> bool
    ensures { result ≡ is_wrong_size size }
{
    match size {
        Sort::Whole { value } => !is_size(value),
        _ => false,
    }
}

/// The type of so many bytes.
pub fn bytes_type(size: Sort) -> Option<ValueType>
    ensures { result ≡ bytes_type size }
{
    match size {
        Sort::Whole { value } => {
            if is_size(value) {
                bits_type(8 * value)
            } else {
                None
            }
        }
        _ => None,
    }
}

pub fn is_bool(sort: Sort) -> bool
    ensures { result ≡ is_bool sort }
{
    match sort {
        Sort::Typed {
            has: ValueType::Bool,
        } => true,
        _ => false,
    }
}

/// The type of a conditional, if it has one.
pub fn choice_type(condition: Sort, one: Sort, other: Sort) -> Option<ValueType>
    ensures { result ≡ choice_type condition one other }
{
    if is_bool(condition) {
        common_type(one, other)
    } else {
        None
    }
}
