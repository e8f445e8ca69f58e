ghost use Rattle.std.specs.Prelude.{◌≡◌, ◌-◌, ◌^◌, ◌<◌, ◌≤◌, length, IfOk};
ghost use Rattle.std.specs.List.{All};
ghost use Rattle.std.specs.List.Sorted.{IsPermutation, IsNonDecreasingBy};
ghost use Rattle.vg_alloc.specs.declared.arrival.Arrival.{Arrival};
ghost use Rattle.vg_alloc.specs.Allocation.{IsAllocation};
ghost use Rattle.vg_alloc.specs.Arrivals.{arrivals_from};

use crate::arrival::Arrival;
use crate::scan::Scan;
use crate::work::Work;
use std::alloc::{AllocError, Global};
use vg_goal::{Intervals, Places};

/// Places for the values of these intervals, with so many saved registers.
pub fn assign(alloc: Global, intervals: &Intervals, saved: u32) -> Result<Places, AllocError>
    requires order { All (λ interval. interval.0 ≤ interval.1) intervals.now.pairs.items }
    requires count { length intervals.now.pairs.items < 2 ^ 32 - 2 }
    ensures { IfOk result (λ made. IsAllocation intervals.now.pairs.items saved made.places.items) }
{
    let pairs = intervals.pairs.as_slice();
    let arrivals = arrivals_of(alloc, pairs)?;
    let work = Work {
        intervals: pairs,
        arrivals: arrivals.as_slice(),
        saved,
    };
    let mut scan = Scan::new(alloc, pairs.len() as u32)?;
    for number in 0..arrivals.len() {
        scan.arrive(&work, number)?;
    }
    Ok(Places {
        places: scan.places,
    })
}

/// The values, in the order in which their intervals begin.
fn arrivals_of(alloc: Global, intervals: &[(usize, usize)]) -> Result<Vec<Arrival>, AllocError>
    requires { length intervals.now < 2 ^ 32 - 2 }
    ensures values { IfOk result (λ arrivals. IsPermutation (arrivals_from intervals.now) arrivals.items) }
    ensures sorted { IfOk result (λ arrivals. IsNonDecreasingBy (λ (arrival : Arrival). arrival.first) arrivals.items) }
{
    let mut arrivals = Vec::with_capacity(alloc, intervals.len())?;
    for (value, interval) in intervals.iter().enumerate() {
        arrivals.push(Arrival {
            first: interval.0,
            last: interval.1,
            value: value as u32,
        })?;
    }
    arrivals.sort_by_key(|arrival| arrival.first)?;
    Ok(arrivals)
}

#[cfg(test)]
mod tests;
