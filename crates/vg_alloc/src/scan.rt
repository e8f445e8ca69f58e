ghost use Rattle.std.specs.Prelude.{◌≡◌, ℕ, ◌+◌, ◌-◌, ◌^◌, ◌<◌, ◌≤◌, [], ◌∷◌, ◌++◌, length, count_by, slice_get, Some, IfOk, OnOk};
ghost use Rattle.vg_goal.specs.declared.place.Place.TheVariants.{Saved};
ghost use Rattle.vg_goal.specs.Slots.{slots};
ghost use Rattle.vg_alloc.specs.declared.arrival.Arrival.{Arrival};
ghost use Rattle.vg_alloc.specs.Allocation.{is_saved, place_at};
ghost use Rattle.vg_alloc.specs.Ends.{end_of};
ghost use Rattle.vg_alloc.specs.Active.{members, last_of, IsKept, InsertsAt};

use crate::active::Active;
use crate::work::Work;
use std::alloc::{AllocError, Global};
use vg_goal::{Place, Places};

/// The places of values on the way through the intervals.
#[derive(Drop)]
pub struct Scan {
    pub places: Vec<Place>,
    active: Active,
    /// The registers that were used and are free again.
    free: Vec<u32>,
    /// How many registers were used.
    used: u32,
}

impl Scan {
    ghost use Rattle.vg_alloc.specs.Steps.{start_at, IsArranged, IsFitting, IsSound, Takes};

    /// Each of so many values has a slot.
    pub fn new(alloc: Global, values: u32) -> Result<Scan, AllocError>
        requires { values < 2 ^ 32 - 2 }
        ensures places { IfOk result (λ made. made.places.items ≡ slots values) }
        ensures kept { IfOk result (λ made. IsKept values made.active) }
        ensures active { IfOk result (λ made. members made.active ≡ []) }
        ensures free { IfOk result (λ made. made.free.items ≡ []) }
        ensures used { IfOk result (λ made. made.used ≡ 0) }
    {
        let made = Places::slots(alloc, values)?;
        let active = Active::new(alloc, values)?;
        Ok(Scan {
            places: made.places,
            active,
            free: Vec::new(alloc),
            used: 0,
        })
    }

    /// Gives a place to the value of the arrival of this number.
    pub fn arrive(&mut self, work: &Work, number: usize) -> Result<(), AllocError>
        requires work { IsArranged work.now }
        requires number { number < length work.now.arrivals.now }
        requires sound { IsSound work.now number (start_at work.now (number - 1)) (start_at work.now (number - 1)) self.old }
        ensures { OnOk result (IsSound work.now (number + 1) (start_at work.now number) (start_at work.now number) self.new) }
    {
        self.expire(work, number)?;
        if self.active.count() < work.saved as usize {
            self.keep(work, number);
            return Ok(());
        }
        let Some(last) = self.active.last() else {
            return Ok(());
        };
        if work.intervals[last as usize].1 <= work.arrivals[number].last {
            return Ok(());
        }
        self.evict(work, number, last)?;
        self.keep(work, number);
        Ok(())
    }

    /// The values whose intervals end before the arrival leave the active ones.
    fn expire(&mut self, work: &Work, number: usize) -> Result<(), AllocError>
        requires work { IsArranged work.now }
        requires number { number < length work.now.arrivals.now }
        requires sound { IsSound work.now number (start_at work.now (number - 1)) (start_at work.now (number - 1)) self.old }
        ensures { OnOk result (IsSound work.now number (start_at work.now number) (start_at work.now number) self.new) }
    {
        let now = work.arrivals[number].first;
        while let Some(value) = self.active.first() {
            if work.intervals[value as usize].1 >= now {
                return Ok(());
            }
            self.active.remove_first(value);
            self.release(value)?;
        }
        Ok(())
    }

    /// The value of the arrival gets a register.
    fn keep(&mut self, work: &Work, number: usize)
        requires work { IsArranged work.now }
        requires number { number < length work.now.arrivals.now }
        requires fitting { IsFitting work.now number (start_at work.now number) (start_at work.now number) self.old }
        requires room { length (members self.old.active) < work.now.saved }
        ensures fitting { IsFitting work.now (number + 1) (start_at work.now number) (start_at work.now number) self.new }
        ensures registers { count_by is_saved self.new.places.items ≡ count_by is_saved self.old.places.items + 1 }
        ensures active { (arrival : Arrival) → slice_get work.now.arrivals.now number ≡ Some arrival → InsertsAt (end_of work.now.intervals.now) arrival.value (members self.old.active) (members self.new.active) }
    {
        let value = work.arrivals[number].value;
        let register = self.take_register();
        self.places[value as usize] = Place::Saved(register);
        self.active.insert(work.intervals, value);
    }

    /// The active value that ends last gets a slot.
    fn evict(&mut self, work: &Work, number: usize, last: u32) -> Result<(), AllocError>
        requires work { IsArranged work.now }
        requires fitting { IsFitting work.now number (start_at work.now number) (start_at work.now number) self.old }
        requires last { last_of (members self.old.active) ≡ Some last }
        ensures fitting { OnOk result (IsFitting work.now number (start_at work.now number) (start_at work.now number) self.new) }
        ensures registers { OnOk result (count_by is_saved self.new.places.items + 1 ≡ count_by is_saved self.old.places.items) }
        ensures active { OnOk result (members self.old.active ≡ members self.new.active ++ last ∷ []) }
    {
        self.active.remove_last(last);
        self.release(last)?;
        self.places[last as usize] = Place::Slot(last + 2);
        Ok(())
    }

    /// The register of a value is free.
    fn release(&mut self, value: u32) -> Result<(), AllocError>
        requires within { value < length self.old.places.items }
        requires register { (r : ℕ) × (place_at self.old.places.items value ≡ Saved r) }
        ensures free { OnOk result ((r : ℕ) → place_at self.old.places.items value ≡ Saved r → self.new.free.items ≡ self.old.free.items ++ r ∷ []) }
        ensures rest { self.new ≡ record self.old { free = self.new.free } }
    {
        if let Place::Saved(register) = self.places[value as usize] {
            self.free.push(register)?;
        }
        Ok(())
    }

    /// A register that no value holds: the one that was given back last, or the next one.
    fn take_register(&mut self) -> u32
        requires { length self.old.free.items ≡ 0 → self.old.used + 1 < 2 ^ 32 }
        ensures taken { Takes self.old.free.items self.old.used self.new.free.items self.new.used result }
        ensures rest { self.new ≡ record self.old { free = self.new.free; used = self.new.used } }
    {
        if let Some(register) = self.free.pop() {
            return register;
        }
        self.used += 1;
        self.used - 1
    }
}
