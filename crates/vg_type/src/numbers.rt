//! The first places in the numbers of items: ranges of fields, values that encodings fix, shifts of targets.

ghost use Rattle.std.specs.Prelude.{◌≡◌, [], ◌∷◌};
ghost use Rattle.vg_ast.specs.declared.fix.Fix.{Fix as FixOf};
ghost use Rattle.vg_names.specs.First.{first_of};
ghost use Rattle.vg_type.specs.Expression.{judged as judged_of};
ghost use Rattle.vg_type.specs.Faults.{of_any, of_each};
ghost use Rattle.vg_type.specs.FirstPlaces.{first_places};
ghost use Rattle.vg_type.specs.Found.{first_found};
ghost use Rattle.vg_type.specs.Item.{number_faults, number_at as faults_at, range_faults, field_faults, power_ranges, part_faults};
ghost use Rattle.vg_type.specs.Setting.{scope_in};

use crate::first_places::FirstPlaces;
use crate::judgement::Judgement;
use crate::judging::judged;
use crate::names::Names;
use crate::places::{at_number, earlier, nowhere};
use crate::setting::Setting;
use crate::settling::{number_width, told, unfit};
use crate::{Sort, ValueType};
use sqlite_items::Boxed;
use vg_ast::{Expr, Field, Fix, Part, Range};

/// What is found of an expression outside of all inner names.
pub fn outside(e: &Expr, setting: &Setting) -> Judgement
    ensures { result ≡ first_found (judged_of (scope_in setting.now.context.now) e.now []) }
{
    judged(e, &Names::Nothing, setting)
}

/// The first places in an expression at a place for a whole number.
pub fn number(e: &Expr, setting: &Setting) -> FirstPlaces
    ensures { result ≡ first_places (number_faults (scope_in setting.now.context.now) e.now) }
{
    at_number(outside(e, setting))
}

/// Those in a whole number at a place of a type.
pub fn number_at(has: Option<ValueType>, e: &Expr, setting: &Setting) -> FirstPlaces
    ensures { result ≡ first_places (faults_at (scope_in setting.now.context.now) has e.now) }
{
    let found = outside(e, setting);
    FirstPlaces {
        width: number_width(found),
        range: found.range.or(unfit(has, found)),
    }
}

fn low(e: &Option<Boxed<Expr>>, setting: &Setting) -> FirstPlaces
    ensures { result ≡ first_places (of_any (number_faults (scope_in setting.now.context.now)) e.now) }
{
    match e {
        None => nowhere(),
        Some(e) => number(e.get(), setting),
    }
}

fn range(range: &Range, setting: &Setting) -> FirstPlaces
    ensures { result ≡ first_places (range_faults (scope_in setting.now.context.now) range.now) }
{
    earlier(number(range.high.get(), setting), low(&range.low, setting))
}

fn ranges(ranges: &[Range], setting: &Setting) -> FirstPlaces
    ensures { result ≡ first_places (of_each (range_faults (scope_in setting.now.context.now)) ranges.now) }
{
    let mut places = nowhere();
    for one in ranges {
        places = earlier(places, range(one, setting));
    }
    places
}

/// The first places in the ranges of fields.
pub fn fields(fields: &[Field], setting: &Setting) -> FirstPlaces
    ensures { result ≡ first_places (of_each (field_faults (scope_in setting.now.context.now)) fields.now) }
{
    let mut places = nowhere();
    for one in fields {
        places = earlier(places, ranges(one.ranges.as_slice(), setting));
    }
    places
}

/// The first places in the values that an encoding fixes.
pub fn fixes(fixes: &[Fix], setting: &Setting) -> FirstPlaces
    ensures { result ≡ first_places (of_each (λ (fix : FixOf). number_faults (scope_in setting.now.context.now) fix.value) fixes.now) }
{
    let mut places = nowhere();
    for one in fixes {
        places = earlier(places, number(one.value.get(), setting));
    }
    places
}

/// The place of a number in a `target` that is more than 63.
fn power(found: Judgement) -> Option<usize>
    ensures { result ≡ first_of (power_ranges found.start found.sort) }
{
    match found.sort {
        Sort::Whole { value } => told(value > 63, found.start),
        _ => None,
    }
}

fn part(part: &Part, setting: &Setting) -> FirstPlaces
    ensures { result ≡ first_places (part_faults (scope_in setting.now.context.now) part.now) }
{
    match part {
        Part::Target { shift, .. } => {
            let found = outside(shift.get(), setting);
            let above = FirstPlaces {
                width: None,
                range: power(found),
            };
            earlier(at_number(found), above)
        }
        _ => nowhere(),
    }
}

/// The first places in the parts of a line of assembly.
pub fn parts(parts: &[Part], setting: &Setting) -> FirstPlaces
    ensures { result ≡ first_places (of_each (part_faults (scope_in setting.now.context.now)) parts.now) }
{
    let mut places = nowhere();
    for one in parts {
        places = earlier(places, part(one, setting));
    }
    places
}
