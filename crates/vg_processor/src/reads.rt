//! Where the first memory read stands in the text.

ghost use Rattle.std.specs.Prelude.{◌≡◌};
ghost use Rattle.vg_processor.specs.Outcome.{first_place as first_place_of, nearer as nearer_of, place_of as place_by, written_place as place_written};

use crate::read_place::ReadPlace;
use vg_tree::{Reading, Written};

fn place_of(reading: &Reading) -> ReadPlace
    ensures { result ≡ place_by reading.now }
{
    ReadPlace {
        at: reading.at,
        address_at: reading.address_at,
    }
}

/// Of two memory reads the first in the text.
pub(crate) fn nearer(one: Option<ReadPlace>, other: Option<ReadPlace>) -> Option<ReadPlace>
    ensures { result ≡ nearer_of one other }
{
    match (one, other) {
        (None, other) => other,
        (Some(one), None) => Some(one),
        (Some(one), Some(other)) => {
            if one.at <= other.at {
                Some(one)
            } else {
                Some(other)
            }
        }
    }
}

/// The first of memory reads.
#[tactic(auto, using(crate::proofs::ReadLemmas::place_more, crate::proofs::ReadLemmas::place_all))]
fn first_place(readings: &[Reading]) -> Option<ReadPlace>
    ensures { result ≡ first_place_of readings.now }
{
    let mut first = None;
    for reading in readings {
        first = nearer(first, Some(place_of(reading)));
    }
    first
}

/// The first memory read in what is written.
pub(crate) fn written_place(written: &Option<Written>) -> Option<ReadPlace>
    ensures { result ≡ place_written written.now }
{
    match written {
        None => None,
        Some(written) => first_place(written.readings.as_slice()),
    }
}
