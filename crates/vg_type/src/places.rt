//! The first places of what stands one behind the other, and of an expression at each kind of place.

ghost use Rattle.std.specs.Prelude.{◌≡◌};
ghost use Rattle.vg_names.specs.First.{first_of};
ghost use Rattle.vg_type.specs.Judged.{unlike_at};
ghost use Rattle.vg_type.specs.FirstPlaces.{nowhere as no_places, earlier as earlier_of, found_anywhere, found_at_type, found_at_number, found_at_condition};
ghost use Rattle.vg_type.specs.Statement.{condition_widths};

use crate::first_places::FirstPlaces;
use crate::judgement::Judgement;
use crate::operator::is_bool;
use crate::settling::{number_width, told, unfit};
use crate::sort::may_be;
use crate::{Sort, ValueType};

/// No place.
pub fn nowhere() -> FirstPlaces
    ensures { result ≡ no_places }
{
    FirstPlaces {
        width: None,
        range: None,
    }
}

/// The first places of what stands in front, or else of what stands behind.
pub fn earlier(front: FirstPlaces, behind: FirstPlaces) -> FirstPlaces
    ensures { result ≡ earlier_of front behind }
{
    FirstPlaces {
        width: front.width.or(behind.width),
        range: front.range.or(behind.range),
    }
}

/// The place of an expression that has another type than its place.
fn unlike(has: Option<ValueType>, found: Judgement) -> Option<usize>
    ensures { result ≡ first_of (unlike_at has found.start found.sort) }
{
    match (has, found.sort) {
        (None, _) | (Some(_), Sort::Untyped) => None,
        (Some(has), sort) => told(!may_be(has, sort), found.start),
    }
}

/// The place of a condition that has another type than Bool.
fn wrong_condition(found: Judgement) -> Option<usize>
    ensures { result ≡ first_of (condition_widths found.start found.sort) }
{
    match found.sort {
        Sort::Untyped => None,
        sort => told(!is_bool(sort), found.start),
    }
}

/// The first places in an expression.
pub fn anywhere(found: Judgement) -> FirstPlaces
    ensures { result ≡ found_anywhere found }
{
    FirstPlaces {
        width: found.width,
        range: found.range,
    }
}

/// Those in an expression at a place of a type.
pub fn at_type(has: Option<ValueType>, found: Judgement) -> FirstPlaces
    ensures { result ≡ found_at_type has found }
{
    FirstPlaces {
        width: found.width.or(unlike(has, found)),
        range: found.range.or(unfit(has, found)),
    }
}

/// Those in an expression at a place for a whole number.
pub fn at_number(found: Judgement) -> FirstPlaces
    ensures { result ≡ found_at_number found }
{
    FirstPlaces {
        width: number_width(found),
        range: found.range,
    }
}

/// Those in a condition.
pub fn at_condition(found: Judgement) -> FirstPlaces
    ensures { result ≡ found_at_condition found }
{
    FirstPlaces {
        width: found.width.or(wrong_condition(found)),
        range: found.range,
    }
}
