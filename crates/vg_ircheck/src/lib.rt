//! The check of a module of LLVM IR: why it isn't compiled.
//!
//! In goes a module, as `vg_ir` has it, and the name of the function in which the run is to begin; out comes that it is
//! accepted, or the one thing that it is refused for. So far the crate has the definitions of that, in `specs/`, laws on
//! them, and in code what is too many. The definitions: the types of operands, results, initialisers and calls and the names
//! that are defined (`Typing`), values that may be read before they are set (`Unset`, over the paths of `Flow` and the reads
//! of `Uses`), what phis list (`Phis`), and how much of everything there may be (`Counts`). `Check` has their order.
//!
//! **What is proved.** Each module is accepted, or is refused for one thing, and not both ([`one_refusal`]). Whether a path
//! leads from the entry block to another is told by a test ([`paths_told`]). [`function_beyond`], [`global_beyond`],
//! [`instruction_beyond`], [`parameters_beyond`] and [`cases_beyond`] give exactly the first place at which something is too
//! many.
//!
//! **Limits.** Where things stand, and what depends on the width of an address, is for whoever places a module.
//!
//! ```text
//! function_beyond(functions)     // the 4,097th function's name, if there is one
//! ```
#![tactic(auto)]

mod counts;
mod laws;
mod place;
mod sought;
mod words;

pub use counts::{cases_beyond, function_beyond, global_beyond, parameters_beyond};
pub use laws::{one_refusal, paths_told};
pub use words::instruction_beyond;
