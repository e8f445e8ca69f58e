//! The choice of a value that a stage reads: from an older instruction in flight, or from the register.
//!
//! An instruction in a pipeline reads a location (a register, or the memory) while older instructions may
//! still be on their way to write it. [`choose`] takes these writers, oldest first, each with what is known of
//! its guard and of its value, and answers whether the value can be taken from one of them ([`Choice::Take`]),
//! whether the location itself has it ([`Choice::Register`]), or whether the instruction has to wait
//! ([`Choice::Wait`]).
//!
//! **What is proved.** The answer is exactly that of the youngest writer whose guard isn't false (`choice_of`);
//! where there is none it is the location's own value. The law `choice_exact` says for each of the three
//! answers when it comes. The law `youngest_first` says that the same choice is made by a walk from the
//! youngest writer to the oldest, in which each writer has its say over the choice of those older than it:
//! the form on which the laws of the pipeline stand.
//!
//! **Limits.** No memory is taken. The list is read once, from its end.
//!
//! ```text
//! let older = Writer { guard: Some(true), value: Some(seven) };
//! let younger = Writer { guard: Some(false), value: None };
//! choose(true, &[older, younger])     // Take(seven): the younger one doesn't write after all
//! choose(false, &[older, younger])    // Wait: without forwarding the older one must write first
//! ```
#![tactic(auto)]

mod choice;
mod choosing;
mod writer;

pub use choice::Choice;
pub use choosing::choose;
pub use writer::Writer;

#[cfg(test)]
mod tests;
