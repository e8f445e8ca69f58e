//! The instruction simulator: a machine that runs an image of a description, one instruction at a time.
//!
//! In go a checked description and an image of it, both borrowed. Out come what each step did and how a
//! run ended:
//!
//! - [`Iss::load`] gives the machine in the first state of the image,
//! - [`Iss::step`] does one instruction, or says in a [`Stepped`] why there is none,
//! - [`Iss::run`] does at most so many and says in a [`Ran`] how it ended and after how many,
//! - [`Iss::pc`], [`Iss::reg`] and [`Iss::byte`] read its state, and [`Iss::next_set`] finds the next byte that
//!   isn't 0. An [`Iss`] is a `vg_isa::View`, too.
//!
//! **What is proved.** The state of a loaded machine is `first_state` of the image. A step answers what
//! `step_of` gives of the state before it, and leaves exactly the state that it moves to, or the state as
//! it was where it doesn't move. A run is the run of the definition (`run_of`): it leaves the state that so many
//! steps lead to, and tells how many were done; `end` is None exactly where all were done and one more would
//! move. A run could also tell that memory for a store was refused, behind so many steps (`LacksMemory`); no run
//! does so far (clause `memory`), since no step takes memory.
//!
//! **Limits.** Words are decoded by trying all instructions in their order. Nothing is stored yet: the
//! behaviours write registers only, and the image has no data, so each byte of memory reads as 0.
//!
//! ```text
//! let mut machine = Iss::load(alloc, &isa, &image)?;
//! let ran = machine.run(1000);          // at most 1000 instructions
//! let sum = machine.reg(file, 10);      // what a register holds then
//! ```
#![tactic(auto)]

mod decoding;
mod fetch;
mod iss;
mod ran;
mod registers;
mod stepped;

pub use iss::Iss;
pub use ran::Ran;
pub use stepped::Stepped;
