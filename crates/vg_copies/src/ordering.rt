ghost use Rattle.std.specs.Prelude.{◌≡◌, ◌≢◌, AllPairs, IfOk};
ghost use Rattle.std.specs.List.{All};
ghost use Rattle.vg_copies.specs.AtOnce.{DoesAtOnce};

use crate::schedule::Schedule;
use std::alloc::{AllocError, Global};
use vg_goal::Place;

/// Single copies that do all the moves at once: pairs of a source and a destination, the first copy first.
pub fn order(
    alloc: Global,
    moves: &[(Place, Place)],
    spare: Place,
) -> Result<Vec<(Place, Place)>, AllocError>
    requires destinations { AllPairs (λ a b. a.1 ≢ b.1) moves.now }
    requires spare { All (λ step. (step.0 ≢ spare) × (step.1 ≢ spare)) moves.now }
    ensures { IfOk result (λ copies. DoesAtOnce moves.now spare copies.items) }
{
    let mut schedule = Schedule::new(alloc, moves, spare)?;
    for number in 0..schedule.moves.len() {
        schedule.follow_if_free(number)?;
    }
    for number in 0..schedule.moves.len() {
        schedule.open_ring_if_left(number)?;
    }
    Ok(schedule.copies)
}

#[cfg(test)]
mod tests;
