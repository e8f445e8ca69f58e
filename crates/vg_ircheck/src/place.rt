ghost use Rattle.std.specs.Prelude.{◌≡◌};
ghost use Rattle.vg_ircheck.specs.Place.{is_before as before_of, first_of};

use vg_ir::Spot;

/// Whether a place stands in front of another in the text.
fn is_before(a: Spot, b: Spot) -> bool
    ensures { result ≡ before_of a b }
{
    a.unit < b.unit || (a.unit == b.unit && a.at < b.at)
}

/// The first of two places, where there is one.
pub fn sooner(first: Option<Spot>, second: Option<Spot>) -> Option<Spot>
    ensures { result ≡ first_of first second }
{
    match (first, second) {
        (None, other) => other,
        (Some(a), None) => Some(a),
        (Some(a), Some(b)) => Some(if is_before(b, a) { b } else { a }),
    }
}
