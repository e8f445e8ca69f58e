ghost use Rattle.std.specs.Prelude.{◌≡◌, ◌≢◌, ℕ, ◌+◌, ◌^◌, ◌<◌, true, false, length, map, filter, slice_index, None, Some, AllPairs, OnOk, IfOk};
ghost use Rattle.std.specs.List.{All};
ghost use Rattle.indexmap.specs.IndexMap.{get_by};
ghost use Rattle.vg_goal.specs.Places.{same_place};
ghost use Rattle.vg_copies.specs.Copies.{leaves};
ghost use Rattle.vg_copies.specs.Schedule.{IsNumbered, AreSingle, AreCounted, pending_of, raised};

use crate::pending::Pending;
use indexmap::IndexMap;
use std::alloc::{AllocError, Global};
use vg_goal::Place;

/// Moves to other places, and the copies that were made for those of them that are done.
#[derive(Drop)]
pub struct Schedule {
    pub spare: Place,
    pub moves: Vec<Pending>,
    /// The number of the move into each destination.
    pub numbers: IndexMap<Place, usize>,
    /// How many moves that wait read the destination of each move.
    pub readers: Vec<usize>,
    /// The place whose first content the spare holds.
    pub saved: Option<Place>,
    pub copies: Vec<(Place, Place)>,
}

impl Schedule {
    ghost use Rattle.vg_copies.specs.declared.pending.Pending.{Pending};
    ghost use Rattle.vg_copies.specs.Schedule.{ends_of, IsAt, Waits, is_saved, holder, writer, lowered, IsSound, IsFree, IsBlocked, NextWaits, Proceeds, Advances};

    /// No move is done.
    pub fn new(
        alloc: Global,
        moves: &[(Place, Place)],
        spare: Place,
    ) -> Result<Schedule, AllocError>
        requires destinations { AllPairs (λ a b. a.1 ≢ b.1) moves.now }
        requires spare { All (λ step. (step.0 ≢ spare) × (step.1 ≢ spare)) moves.now }
        ensures sound { IfOk result (IsSound None) }
        ensures moves { IfOk result (λ made. map ends_of made.moves.items ≡ filter leaves moves.now) }
        ensures spare { IfOk result (λ made. made.spare ≡ spare) }
    {
        let moves = leaving(alloc, moves)?;
        let numbers = numbers_of(alloc, moves.as_slice())?;
        let readers = readers_of(alloc, moves.as_slice(), &numbers)?;
        Ok(Schedule {
            spare,
            moves,
            numbers,
            readers,
            saved: None,
            copies: Vec::new(alloc),
        })
    }

    /// Whether the spare holds what the place held first.
    fn is_saved(&self, place: Place) -> bool
        ensures { result ≡ is_saved self.now.saved place }
    {
        self.saved == Some(place)
    }

    /// Where the first content of a place can be read.
    fn holder(&self, place: Place) -> Place
        ensures { result ≡ holder self.now.spare self.now.saved place }
    {
        if self.is_saved(place) {
            self.spare
        } else {
            place
        }
    }

    /// The move into the place, unless that is read from the spare. It has one move less to wait for from now on.
    fn release(&mut self, place: Place) -> Option<usize>
        requires { (k : ℕ) → writer self.old.saved self.old.numbers place ≡ Some k → (k < length self.old.readers.items) × (0 < slice_index self.old.readers.items k) }
        ensures found { result ≡ writer self.old.saved self.old.numbers place }
        ensures lowered { self.new.readers.items ≡ lowered result self.old.readers.items }
        ensures rest { self.new ≡ record self.old { readers = self.new.readers } }
    {
        if self.is_saved(place) {
            return None;
        }
        let writer = self.numbers.get(&place).copied()?;
        self.readers[writer] -= 1;
        Some(writer)
    }

    /// Does a move. Gives the one that has one move less to wait for then, if there is one.
    fn finish(&mut self, number: usize) -> Result<Option<usize>, AllocError>
        requires sound { IsSound (Some number) self.old }
        requires free { IsFree self.old number }
        ensures sound { OnOk result (IsSound None self.new) }
        ensures next { IfOk result (NextWaits self.new) }
        ensures proceeds { IfOk result (Proceeds self.old self.new number) }
    {
        let Pending {
            source,
            destination,
            ..
        } = self.moves[number];
        let from = self.holder(source);
        self.copies.push((from, destination))?;
        self.moves[number].is_done = true;
        Ok(self.release(source))
    }

    /// Does the move, and then each that has nothing left to wait for.
    fn follow(&mut self, start: usize) -> Result<(), AllocError>
        requires sound { IsSound (Some start) self.old }
        requires free { IsFree self.old start }
        ensures sound { OnOk result (IsSound None self.new) }
        ensures proceeds { OnOk result (Proceeds self.old self.new start None) }
    {
        let mut next = self.finish(start)?;
        while let Some(number) = next {
            if self.readers[number] > 0 {
                return Ok(());
            }
            next = self.finish(number)?;
        }
        Ok(())
    }

    /// Does the moves of a ring. What its first destination holds goes to the spare.
    fn open_ring(&mut self, start: usize) -> Result<(), AllocError>
        requires sound { IsSound None self.old }
        requires waits { (step : Pending) × Waits self.old.moves.items start step }
        requires blocked { (k : ℕ) (step : Pending) → Waits self.old.moves.items k step → IsBlocked self.old k }
        ensures sound { OnOk result (IsSound None self.new) }
        ensures proceeds { OnOk result (Proceeds self.old self.new start None) }
    {
        let destination = self.moves[start].destination;
        self.copies.push((destination, self.spare))?;
        self.saved = Some(destination);
        self.follow(start)
    }

    /// Does the move if it waits for no other one, and then each that has nothing left to wait for.
    pub fn follow_if_free(&mut self, number: usize) -> Result<(), AllocError>
        requires sound { IsSound None self.old }
        requires number { number < length self.old.moves.items }
        ensures sound { OnOk result (IsSound None self.new) }
        ensures advances { OnOk result (Advances self.old self.new) }
        ensures blocked { OnOk result ((step : Pending) → Waits self.new.moves.items number step → IsBlocked self.new number) }
    {
        if self.moves[number].is_done || self.readers[number] > 0 {
            return Ok(());
        }
        self.follow(number)
    }

    /// Does the moves of the ring that the move is in, if it is left.
    pub fn open_ring_if_left(&mut self, number: usize) -> Result<(), AllocError>
        requires sound { IsSound None self.old }
        requires number { number < length self.old.moves.items }
        requires blocked { (k : ℕ) (step : Pending) → Waits self.old.moves.items k step → IsBlocked self.old k }
        ensures sound { OnOk result (IsSound None self.new) }
        ensures advances { OnOk result (Advances self.old self.new) }
        ensures done { OnOk result ((step : Pending) → IsAt self.new.moves.items number step → step.is_done ≡ true) }
    {
        if self.moves[number].is_done {
            return Ok(());
        }
        self.open_ring(number)
    }
}

/// The moves to other places.
fn leaving(alloc: Global, moves: &[(Place, Place)]) -> Result<Vec<Pending>, AllocError>
    ensures { IfOk result (λ steps. steps.items ≡ map pending_of (filter leaves moves.now)) }
{
    moves
        .iter()
        .filter(|step| step.0 != step.1)
        .map(|step| Pending {
            source: step.0,
            destination: step.1,
            is_done: false,
        })
        .collect(alloc)
}

/// The number of the move into each destination.
fn numbers_of(alloc: Global, moves: &[Pending]) -> Result<IndexMap<Place, usize>, AllocError>
    ensures { IfOk result (λ numbers. IsNumbered numbers moves.now) }
{
    let mut numbers = IndexMap::new(alloc);
    for (number, step) in moves.iter().enumerate() {
        numbers.insert(step.destination, number)?;
    }
    Ok(numbers)
}

/// How many of the moves, none of which is done, read the destination of each.
fn readers_of(
    alloc: Global,
    moves: &[Pending],
    numbers: &IndexMap<Place, usize>,
) -> Result<Vec<usize>, AllocError>
    requires numbered { IsNumbered numbers.now moves.now }
    requires single { AreSingle moves.now }
    requires waiting { All (λ step. step.is_done ≡ false) moves.now }
    ensures lengths { IfOk result (λ readers. length readers.items ≡ length moves.now) }
    ensures counted { IfOk result (λ readers. AreCounted readers.items moves.now) }
{
    let mut readers = vec![in alloc; 0; moves.len()]?;
    for step in moves {
        note_reader(&mut readers, numbers, step.source);
    }
    Ok(readers)
}

/// Counts one more reader of the place for the move into it, if there is one.
fn note_reader(readers: &mut Vec<usize>, numbers: &IndexMap<Place, usize>, place: Place)
    requires { (k : ℕ) → get_by (same_place place) numbers.now ≡ Some k → (k < length readers.old.items) × (slice_index readers.old.items k + 1 < 2 ^ 64) }
    ensures { readers.new.items ≡ raised (get_by (same_place place) numbers.now) readers.old.items }
{
    if let Some(writer) = numbers.get(&place).copied() {
        readers[writer] += 1;
    }
}
