//! Which values of a function live in registers.
//!
//! In: an interval of places in the code for each value, and the number of saved registers. Out: for each value its
//! [`vg_goal::Place`]: `Saved(k)` with k below that number, or `Slot(k)` with k from 2 to the number of values plus 1.
//! The condition is that no interval ends before it begins, and that there are fewer than 2^32 - 2 of them.
//!
//! The theorem (`specs/Allocation.antt`, the record `IsAllocation`): values whose intervals cross have different
//! places, and no choice of intervals of which at most so many hold any one place has more members than those that
//! get a register. So as few get a slot as any choice allows, and none does where no place is held by more intervals
//! than there are registers.
//!
//! [`assign`] goes through the intervals by their first places. The active ones, which hold a register and haven't
//! ended, stand in a list in the order of their last places. Those that have ended by the next interval leave it at its
//! front, and their registers are free again. Where no register is free, the one of all active intervals and the
//! new one that ends last gets a slot. This is the best choice: by each place, at least as many of the intervals that
//! were kept have ended as of any other choice.
//!
//! Time: sorting, and for each interval a walk over the active ones, of which there are at most as many as registers.
//! An interval that ends behind all active ones needs no walk to go into the list, and none is needed to leave it at
//! its front. So the worst case is the number of intervals times the number of registers (or the pressure, if that is
//! less): intervals that each end before the ones that were active, while more are active than registers.
//!
//! ```text
//! assign(alloc, &Intervals { pairs: [(0, 9), (1, 3), (2, 5), (4, 6)] }, 2)?
//!     // Slot(2), Saved(1), Saved(0), Saved(1)
//! ```
#![tactic(auto)]

mod active;
mod arrival;
mod assignment;
mod scan;
mod work;

pub use assignment::assign;
