//! The law of agreement: when what a machine says after any number of moves is so of the program that it runs.
//!
//! In goes a simulation diagram ([`Diagrams`], `specs/Diagram.antt`): a program's meaning as a step from a start, a
//! machine as a move from a first place, a relation between the states of the two, and two costs. It commutes where the
//! machine comes from its first place to what the start says within the start's cost, and from a place that is related
//! to a state to what that state's step says within 1 move at least and a step's cost at most.
//!
//! Out comes that both runs agree, for every bound on the machine's moves and in both directions ([`agreement`],
//! `specs/Agreement.antt`). The machine has ended only where the program ends, with the result that is shown, and has
//! halted for a full stack only where the program fills it. It still runs only where the program has made as many
//! steps as the bound less the start's cost allows, by the cost of a step, without an end. Where the program ends or
//! fills its stack the machine has halted for that by the costs of the steps, and it runs while the program does. Of a
//! program that becomes undefined it says nothing from there on, and only then it fails in another way.
//!
//! So a compiler's proof gives the relation and the costs of one step, and no more. States, results, causes, places and
//! faults are any types. A meaning whose end carries the bytes of memory takes both as its result, a machine with more
//! kinds of failure one fault for each. The law of all diagrams is `agrees` of `proofs/Simulation.antt`, the same at
//! the diagrams of a type the contract of [`agreement`].
//!
//! There is no code that runs. [`adding_agrees`] tries the law on a small pair, and [`others_disagree`] says of
//! machines and costs that are a little wrong that they fail it.
//!
//! ```text
//! impl Diagrams for Adding {
//!     ghost Index = { List ℕ };
//!     ghost diagram = { adding 255 1 2 };
//! }
//! ```
#![tactic(auto)]

mod adding;
mod diagrams;

pub use adding::{Adding, adding_agrees, others_disagree};
pub use diagrams::{Diagrams, agreement};
