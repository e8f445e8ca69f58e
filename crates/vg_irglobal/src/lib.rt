//! What stands outside of the bodies of functions in textual LLVM IR, read exactly: so far initialisers, globals, named
//! structures, `source_filename` and `target`.
//!
//! In go the lexemes of a text from some place on. Out comes what they begin with and the lexemes behind it, or the place where
//! they leave the grammar and what was wanted there.
//!
//! The theorem: each function of the code is equal to a reader on lists (`specs/`), and of those readers [`exact_initials`],
//! [`exact_globals`], [`exact_structures`] and [`exact_skipped`] say that they are exact in the sense of `vg_irread`: what is read is a tree of the
//! grammar that the lexemes in front spell; each tree of the grammar is read, where it ends; and where one is refused, some
//! tree begins with the lexemes in front, and the next one is refused whatever is behind it.
//!
//! An initialiser may hold others. For each number of brackets there is a reader that is exact for the trees with at most so
//! many (`proofs/InitialsExact.antt`); with more room it refuses what it refused, at the same place (`proofs/Below.antt`), so all
//! together are exact for each tree.
//!
//! **Limits.** At most 1,000 brackets of initialisers stand in one another, and as many of a type in them; for more there is no
//! memory. Groups of attributes, metadata lines,
//! `declare` lines and the heads of functions aren't read yet.
//!
//! ```text
//! let found = vg_irlex::lexemes(alloc, b"@a = private constant [2 x i8] c\"a\\00\", align 1 @b")?;
//! let (global, rest) = global_item_at(alloc, text, found.as_slice())?;
//! // a constant of two bytes with its linkage and alignment; `@b` is left
//! ```
#![tactic(auto)]

mod global;
mod initial;
mod laws;
mod skipped;
mod structure;
#[cfg(test)]
mod tests;
mod word;

pub use global::global_item_at;
pub use initial::initial_at;
pub use laws::{exact_globals, exact_initials, exact_skipped, exact_structures};
pub use skipped::{source_filename_at, target_at};
pub use structure::structure_at;
