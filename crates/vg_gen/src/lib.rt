//! A module of textual LLVM IR that is made from one number: the large input on which the compiler is tried.
//!
//! In goes a number of 64 bits, out comes the text of a module ([`module`]): 100 functions `@f0` to `@f99` of 40 drawn
//! operations on `i16` each, and `@main`, which calls them one after another, each with the result of the call before.
//! It has 101 functions and 4,201 instructions.
//!
//! The theorem: the text is that of the definition `module_text` (`specs/ModuleText.antt`), byte for byte, for every
//! number. What is drawn is said in `specs/Drawing.antt`: a linear congruential sequence modulo 2^64 that begins with
//! the number, of which each draw takes the next number and answers its bits from 33 up, below a bound. Each
//! instruction draws its operation, then its first and then its second operand.
//!
//! The type `Draws` is the sequence at the number to which it has come. A module is made in less than a millisecond.
//! Limits: none; every number has a module.
//!
//! ```text
//! let text = module(alloc, 1)?; // define i16 @f0(i16 %v0, i16 %v1) { ..
//! ```
#![tactic(auto)]

mod draws;
#[cfg(test)]
mod tests;
mod text;

pub use text::module;
