//! The second read of a behaviour.
ghost use Rattle.std.specs.Prelude.{◌≡◌, ◌∷◌};
ghost use Rattle.vg_stage.specs.Earliest.{earlier, least};
ghost use Rattle.vg_tree.specs.Access.{same_reading as same_reading_of, second_places};
ghost use Rattle.vg_access.specs.Unlike.{first_by, nearer as nearer_of, unlike, unlike_place};

use vg_tree::{Reading, same_tree};

/// A place, where one before it is known.
pub(crate) fn with_place(first: Option<usize>, at: usize) -> Option<usize>
    ensures { result ≡ earlier first (Some at) }
{
    match first {
        None => Some(at),
        Some(other) => Some(other.min(at)),
    }
}

fn same_reading(a: &Reading, b: &Reading) -> bool
    ensures { result ≡ same_reading_of a.now b.now }
{
    same_tree(a.address.get(), b.address.get()) && a.bytes == b.bytes
}

fn nearer<'a>(a: &'a Reading, b: &'a Reading) -> &'a Reading
    ensures { result.now ≡ nearer_of a.now b.now }
{
    if a.at <= b.at { a } else { b }
}

/// Of a read and others the one that stands first.
fn first_of<'a>(first: &'a Reading, others: &'a [Reading]) -> &'a Reading
    ensures { result.now ≡ first_by first.now others.now }
{
    let mut found = first;
    for reading in others {
        found = nearer(found, reading);
    }
    found
}

/// A place, and that of a read where it is unlike another one.
#[tactic(auto, using(vg_stage::proofs::EarliestLemmas::earlier_none))]
fn with_unlike(found: Option<usize>, first: &Reading, reading: &Reading) -> Option<usize>
    ensures { result ≡ earlier found (least (unlike_place first.now reading.now)) }
{
    if same_reading(first, reading) {
        found
    } else {
        with_place(found, reading.at)
    }
}

/// The least place of those that are unlike a read.
fn least_unlike(first: &Reading, readings: &[Reading]) -> Option<usize>
    ensures { result ≡ least (unlike first.now readings.now) }
{
    let mut found = None;
    for reading in readings {
        found = with_unlike(found, first, reading);
    }
    found
}

/// The least place of a read in front of which, or at which, another with another address or size stands.
#[tactic(auto, using(crate::proofs::SecondReadings::least_second, crate::proofs::SecondReadings::no_second))]
pub(crate) fn second_reading(readings: &[Reading]) -> Option<usize>
    ensures { result ≡ least (second_places readings.now readings.now) }
{
    if readings.is_empty() {
        return None;
    }
    let first = first_of(&readings[0], readings);
    least_unlike(first, readings)
}
