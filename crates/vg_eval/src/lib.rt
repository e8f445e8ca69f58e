//! The evaluator of behaviours that a simulator runs: trees to plain numbers.
//!
//! It gives what `vg_isa` defines and gives too, in a form that is fast: the walk over a tree hands up a number,
//! and is told the width that the tree has, in place of handing up a bit value.
//!
//! - [`make`] gives the write that a guarded write makes, where its guard holds,
//! - [`next_of`] the program counter after an instruction.
//!
//! **What is proved.** Each gives exactly the value of the definitions (`made_by`, `next_pc_of` of `vg_isa`), for every
//! tree of an `Isa` and every view of a state, and the widths that its place needs. Neither has an error, and neither
//! takes memory.
//!
//! **How it is fast.** A guard that is a constant, an index that is a field, and a register whose index is a field are
//! no further call. Operators are always inlined.
//!
//! **Limits.** As those of `vg_isa`; evaluation recurses on a tree.
//!
//! ```text
//! let made = make(&isa, &write, word, &machine);   // the write, where its guard holds in this state
//! ```
#![tactic(auto)]

mod effect;
mod number;
mod operators;
mod tree_width;

pub use effect::{make, next_of};
