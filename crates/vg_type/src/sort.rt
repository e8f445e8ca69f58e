ghost use Rattle.std.specs.Prelude.{◌≡◌};
ghost use Rattle.vg_type.specs.ValueType.{sort_of_type, whole_or, worth_of, is_untyped, is_valueless, may_be, common_type};

use crate::ValueType;
use crate::value_type::same_type;
use vg_whole::Worth;

/// What an expression is.
#[derive(Clone, Copy, Debug, PartialEq, Eq)]
pub enum Sort {
    /// A whole number, which takes the type of its place.
    Whole { value: u128 },
    /// A whole number without a value, since the expression of a constant is none.
    NoValue,
    /// It has this type.
    Typed { has: ValueType },
    /// It has no type.
    Untyped,
}

/// What has this type, if any.
pub fn sort_of_type(has: Option<ValueType>) -> Sort
    ensures { result ≡ sort_of_type has }
{
    match has {
        None => Sort::Untyped,
        Some(has) => Sort::Typed { has },
    }
}

/// What a whole number is, or else something with a type.
pub fn whole_or(worth: Worth, typed: Sort) -> Sort
    ensures { result ≡ whole_or worth typed }
{
    match worth {
        Worth::Whole(value) => Sort::Whole { value },
        Worth::NoValue => Sort::NoValue,
        Worth::Typed => typed,
    }
}

/// What an expression is worth as a whole number.
pub fn worth_of(sort: Sort) -> Worth
    ensures { result ≡ worth_of sort }
{
    match sort {
        Sort::Whole { value } => Worth::Whole(value),
        Sort::NoValue => Worth::NoValue,
        Sort::Typed { .. } | Sort::Untyped => Worth::Typed,
    }
}

pub fn is_untyped(sort: Sort) -> bool
    ensures { result ≡ is_untyped sort }
{
    match sort {
        Sort::Untyped => true,
        Sort::Whole { .. } | Sort::NoValue | Sort::Typed { .. } => false,
    }
}

/// Whether it has neither a value nor a type that could be told.
pub fn is_valueless(sort: Sort) -> bool
    ensures { result ≡ is_valueless sort }
{
    match sort {
        Sort::Untyped | Sort::NoValue => true,
        Sort::Whole { .. } | Sort::Typed { .. } => false,
    }
}

/// Whether an expression may stand where a type is asked for.
pub fn may_be(has: ValueType, sort: Sort) -> bool
    ensures { result ≡ may_be has sort }
{
    match sort {
        Sort::Typed { has: other } => same_type(has, other),
        Sort::Whole { .. } | Sort::NoValue => true,
        Sort::Untyped => false,
    }
}

/// The type of two expressions that stand for the same, if they have one.
pub fn common_type(a: Sort, b: Sort) -> Option<ValueType>
    ensures { result ≡ common_type a b }
{
    match (a, b) {
        (Sort::Typed { has }, Sort::Typed { has: other }) => {
            if same_type(has, other) {
                Some(has)
            } else {
                None
            }
        }
        (Sort::Typed { has }, Sort::Whole { .. } | Sort::NoValue)
        | (Sort::Whole { .. } | Sort::NoValue, Sort::Typed { has }) => Some(has),
        _ => None,
    }
}
