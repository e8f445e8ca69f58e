ghost use Rattle.std.specs.Prelude.{◌≡◌, ◌<◌, ◌≤◌, length, IfOk};
ghost use Rattle.std.specs.List.{All};

use super::assign;
use std::alloc::{AllocError, Global};
use std::process::Abort;
use std::test::Fail;
use vg_goal::{Intervals, Place, Places};

/// These intervals, of which none may end before it begins.
fn intervals_of(
    rt: &impl Abort,
    alloc: Global,
    pairs: &[(usize, usize)],
) -> Result<Intervals, AllocError>
    ensures order { IfOk result (λ made. All (λ interval. interval.0 ≤ interval.1) made.pairs.items) }
    ensures count { IfOk result (λ made. length made.pairs.items ≡ length pairs.now) }
{
    let mut made = Vec::new(alloc);
    for pair in pairs {
        assert!(rt; pair.0 <= pair.1);
        made.push(*pair)?;
    }
    Ok(Intervals { pairs: made })
}

/// How many of the places are slots.
fn slots_among(places: &Places) -> usize {
    places
        .places
        .iter()
        .filter(|place| matches!(place, Place::Slot(_)))
        .count()
}

/// Intervals that all hold the place 12.
const CROSSING: [(usize, usize); 13] = [
    (0, 12),
    (1, 24),
    (2, 13),
    (3, 23),
    (4, 14),
    (5, 22),
    (6, 15),
    (7, 21),
    (8, 16),
    (9, 20),
    (10, 17),
    (11, 19),
    (12, 18),
];

#[test]
fn twelve_registers_hold_twelve_crossing_values(rt: HostRuntime) -> Result<(), Fail> {
    let twelve = intervals_of(&rt, rt.alloc(), &CROSSING[..12])?;
    assert_eq!(rt; slots_among(&assign(rt.alloc(), &twelve, 12)?), 0);
    let thirteen = intervals_of(&rt, rt.alloc(), &CROSSING)?;
    assert_eq!(rt; slots_among(&assign(rt.alloc(), &thirteen, 12)?), 1);
    Ok(())
}

#[test]
fn the_interval_that_ends_last_gets_the_slot(rt: HostRuntime) -> Result<(), Fail> {
    let intervals = intervals_of(&rt, rt.alloc(), &[(0, 9), (1, 3), (2, 5), (4, 6)])?;
    let made = assign(rt.alloc(), &intervals, 2)?;
    assert_eq!(rt;
        made.places.as_slice(),
        [
            Place::Slot(2),
            Place::Saved(1),
            Place::Saved(0),
            Place::Saved(1)
        ]
        .as_slice()
    );
    Ok(())
}
