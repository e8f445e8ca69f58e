//! What the passes of the compiler behind machine operations hand to one another: where each value lives.
//!
//! A [`Place`] is a saved register, an argument register or a word of the frame. An [`Intervals`] has for each value
//! of a function the first and the last place in the code where it is needed. A [`Places`] has for each value the
//! place where it lives; `vg_alloc` makes one of the intervals, and [`Places::slots`] makes the one in which every value
//! has a slot of its own.
//!
//! `Places::slots` is proved to give value number v, from 0, the place `Slot(v + 2)`: the first two words of the
//! slots' area hold the return address and the spare of `vg_copies`.
//!
//! Limits: there are fewer than 2^32 - 2 values.
//!
//! ```text
//! let places = Places::slots(alloc, 3)?;      // Slot(2), Slot(3), Slot(4)
//! ```
#![tactic(auto)]

mod intervals;
mod place;
mod places;

pub use intervals::Intervals;
pub use place::Place;
pub use places::Places;
