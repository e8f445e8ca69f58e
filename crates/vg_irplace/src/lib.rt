//! Where the parts of a module of LLVM IR stand, and what they cost.
//!
//! In goes a module and what a processor says of its memory and registers ([`Target`]); out comes, by the definitions in
//! `specs/`, the address of each global, the size of each function's frame and the places of its allocas in it, what an
//! instruction may cost in steps and in words of code, and what is refused for the processor's sake: arguments of the first
//! function that don't fit, and what is too large.
//!
//! **What is proved.** Each module may be placed, or isn't for one thing, and not both ([`one_refusal`]). The definitions are
//! functions of the module and the target, and no choice of a compiler.
//!
//! **Limits.** Types are laid out as `vg_ir` lays them out.
//!
//! ```text
//! frame_size small target function     // of the function with one i32, on a processor of 32 bits
//! ```
#![tactic(auto)]

mod argument;
mod laws;
mod target;

pub use argument::Argument;
pub use laws::one_refusal;
pub use target::Target;
