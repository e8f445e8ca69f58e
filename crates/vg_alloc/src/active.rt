ghost use Rattle.std.specs.Prelude.{◌≡◌, ℕ, ◌+◌, ◌^◌, ◌<◌, ◌≤◌, [], ◌∷◌, ◌++◌, length, slice_get, Some, IfOk, MatchOption};
ghost use Rattle.std.specs.List.Sorted.{IsNonDecreasingBy};
ghost use Rattle.vg_alloc.specs.Ends.{end_of, EndsBy, AreWithin};

use std::alloc::{AllocError, Global};
use vg_list::Lists;

/// The values that hold a register and whose intervals haven't ended, in the order of their ends.
#[derive(Drop)]
pub struct Active {
    /// They stand in list 0.
    lists: Lists,
    count: usize,
    last: Option<u32>,
}

impl Active {
    ghost use Rattle.vg_alloc.specs.Active.{members, last_of, IsKept, Lacks, InsertsAt};

    /// None of so many values is active.
    pub fn new(alloc: Global, values: u32) -> Result<Active, AllocError>
        ensures kept { IfOk result (IsKept values) }
        ensures members { IfOk result (λ made. members made ≡ []) }
    {
        let lists = Lists::new(alloc, values, 1)?;
        Ok(Active {
            lists,
            count: 0,
            last: None,
        })
    }

    /// How many are active.
    pub fn count(&self) -> usize
        requires { IsKept self.now.lists.nodes self.now }
        ensures { result ≡ length (members self.now) }
    {
        self.count
    }

    /// The one that ends first.
    pub fn first(&self) -> Option<u32>
        requires { IsKept self.now.lists.nodes self.now }
        ensures { result ≡ slice_get (members self.now) 0 }
    {
        self.lists.first(0)
    }

    /// The one that ends last.
    pub fn last(&self) -> Option<u32>
        requires { IsKept self.now.lists.nodes self.now }
        ensures { result ≡ last_of (members self.now) }
    {
        self.last
    }

    /// Takes out the one that ends first.
    pub fn remove_first(&mut self, first: u32)
        requires kept { IsKept self.old.lists.nodes self.old }
        requires first { slice_get (members self.old) 0 ≡ Some first }
        ensures kept { IsKept self.old.lists.nodes self.new }
        ensures members { members self.old ≡ first ∷ members self.new }
        ensures gone { Lacks (members self.new) first }
    {
        self.lists.unlink(first);
        self.count -= 1;
        if self.count == 0 {
            self.last = None;
        }
    }

    /// Takes out the one that ends last.
    pub fn remove_last(&mut self, last: u32)
        requires kept { IsKept self.old.lists.nodes self.old }
        requires last { last_of (members self.old) ≡ Some last }
        ensures kept { IsKept self.old.lists.nodes self.new }
        ensures members { members self.old ≡ members self.new ++ last ∷ [] }
        ensures gone { Lacks (members self.new) last }
    {
        self.lists.unlink(last);
        self.count -= 1;
        self.last = self.find_last();
    }

    /// Puts in a value, by the end of its interval.
    pub fn insert(&mut self, intervals: &[(usize, usize)], value: u32)
        requires kept { IsKept self.old.lists.nodes self.old }
        requires value { value < self.old.lists.nodes }
        requires absent { Lacks (members self.old) value }
        requires room { length (members self.old) + 1 < 2 ^ 64 }
        requires intervals { self.old.lists.nodes ≡ length intervals.now }
        requires within { AreWithin intervals.now (members self.old) }
        requires sorted { IsNonDecreasingBy (end_of intervals.now) (members self.old) }
        ensures kept { IsKept self.old.lists.nodes self.new }
        ensures place { InsertsAt (end_of intervals.now) value (members self.old) (members self.new) }
    {
        match self.first_behind(intervals, intervals[value as usize].1) {
            Some(at) => self.lists.insert_before(at, value),
            None => {
                self.lists.push_back(0, value);
                self.last = Some(value);
            }
        }
        self.count += 1;
    }

    /// The first one that ends behind this place.
    fn first_behind(&self, intervals: &[(usize, usize)], place: usize) -> Option<u32>
        requires kept { IsKept self.now.lists.nodes self.now }
        requires within { AreWithin intervals.now (members self.now) }
        requires sorted { IsNonDecreasingBy (end_of intervals.now) (members self.now) }
        ensures { MatchOption result
            (EndsBy intervals.now place (members self.now) (length (members self.now)))
            (λ at. (k : ℕ) × (slice_get (members self.now) k ≡ Some at) × EndsBy intervals.now place (members self.now) k × (place < end_of intervals.now at)) }
    {
        let last = self.last?;
        if intervals[last as usize].1 <= place {
            return None;
        }
        let mut current = self.lists.first(0);
        for _passed in 0..self.count {
            let member = current?;
            if intervals[member as usize].1 > place {
                return Some(member);
            }
            current = self.lists.next(member);
        }
        None
    }

    /// The last one of the list, found from its front.
    fn find_last(&self) -> Option<u32>
        requires lists { length self.now.lists.lists ≡ 1 }
        requires count { self.now.count ≡ length (members self.now) }
        ensures { result ≡ last_of (members self.now) }
    {
        let mut last = self.lists.first(0)?;
        for _passed in 1..self.count {
            last = self.lists.next(last)?;
        }
        Some(last)
    }
}
