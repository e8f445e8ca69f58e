//! The rules on the names of a description: nothing is defined twice, and each name is used as what it is defined as.
//!
//! In goes a description as its trees. Out comes the place of the first name that is defined twice in its scope, or of
//! the first name that is used but not defined as what its place asks for, as an offset in bytes into the text; None
//! where there is no such name.
//!
//! The theorem: [`first_duplicate`] answers the first of `duplicates` of vg_names' `specs/Duplicate.antt`, and
//! [`first_unknown`] the first of `unknowns` of its `specs/Unknown.antt`, unless memory runs out. A duplicate is a claim
//! that repeats one before it: a name in one `Scope`, or a second program counter or memory. An unknown is a name at a
//! place that asks for something else, an instruction without an encoding, a part for another architecture, or the `}` of
//! an instruction set part that lacks a program counter, a memory or an instruction. The names of `let`, and the
//! parameters or fields in scope, hide those of items.
//!
//! The time is near linear in the text: names are looked up in the table of vg_names. The recursion is as deep as the
//! trees, which is at most 64.
//!
//! With `constant a = 1` and then `register a : Bits<8>` among the items:
//!
//! ```
//! let found = vg_resolve::first_duplicate(alloc, &description)?;
//! // Some(place), where the second `a` stands at that place
//! ```
#![tactic(auto)]

mod asked;
mod duplicate;
mod fault;
mod lacking;
mod unknown_expression;
mod unknown_item;
mod unknown_name;
mod unknown_part;
mod unknown_statement;

pub use fault::{first_duplicate, first_unknown};
