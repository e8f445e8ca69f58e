//! Worked modules of IR, and how their runs end.
//!
//! Nothing goes in or comes out: each function has no body, and its clauses say how the run of a module stands after so many
//! steps. They are proved by computing the definitions of `vg_ir`, so they show that these mean what a reader of the LLVM
//! Language Reference expects. The modules stand in `specs/` as data, each below its text: loops with phis, a factorial in
//! memory, a recursion that fills the stack, structures and addresses, choices, single instructions, and one run for each
//! cause why a step is undefined.
//!
//! **Limits.** A run of some hundred steps computes in a second; longer ones are left to the compiler's tests.
//!
//! ```text
//! exchanged()     // its clause: phis are all read before any is set, so the run ends with 21
//! ```
#![tactic(auto)]

mod causes;
mod forms;
mod loops;
mod recursion;
mod values;

pub use causes::{accesses, bytes, constants, divisions, shifts, unreachables, unset_values};
pub use forms::{choices, narrow_numbers, structures};
pub use loops::{exchanged, factorials};
pub use recursion::recursions;
pub use values::{casts, comparisons, comparisons_of_equals, counts, operations, starts};
