//! Worked modules of IR, and what they are refused for.
//!
//! Nothing goes in or comes out: each function has no body, and its clauses say of small modules where they break a rule, or
//! that they don't. They are proved by computing the definitions of `vg_ircheck`, so they show that these mean what a reader
//! expects.
//!
//! **Limits.** The modules have a few blocks; large ones are left to tests of the check.
//!
//! ```text
//! instructions()     // its clauses: `add i32 %a, %b` with an i8 %b is told at %b
//! ```
#![tactic(auto)]

mod flows;
mod placed;
mod typed;

pub use flows::{accepted, holding, names, phis, reads};
pub use placed::{costs, places};
pub use typed::{calls, casts, ends, initializers, instructions};
