//! The reader of textual LLVM IR.
//!
//! It is made of exact readers. A reader on lists (`specs/Reading.antt`) takes lexemes from the front and gives what they
//! stand for and the lexemes behind, or the place where they leave the grammar and what was wanted there. `specs/Exact.antt`
//! says when such a reader is exact for what trees spell: what it reads is a tree of the grammar that the lexemes in front
//! spell; each tree of the grammar is read, where it ends; where it refuses, some tree begins with the lexemes in front, and
//! the next one is refused whatever is behind it; and each decision is taken by the next lexeme alone. One lexeme, one
//! behind another, what may lack, rows, steps from a state to the next, and another spelling of the same texts each keep
//! exactness by one law (`proofs/`), which asks that the lexemes that may not follow the one begin none of the other; tables
//! of kinds decide that by computation (`specs/Kinds.antt`).
//!
//! Each function of the code is equal to a reader on lists, and [`exact_operands`], [`exact_instructions`] and
//! [`exact_terminators`] say of those readers that they are exact.
//!
//! **Limits.** So far there are types, names, operands, the instructions with two operands, `icmp`, `select`, the casts and
//! `freeze`, and terminators. At most 1,000 brackets of a type stand in one another; for more there is no memory.
#![tactic(auto)]

mod instruction;
mod laws;
mod number;
mod operand;
mod place;
mod terminator;
#[cfg(test)]
mod tests;
mod types;
mod word;

pub use laws::{exact_instructions, exact_operands, exact_terminators};
pub use number::number_of;
pub use operand::{is_number_for, sign_at};
pub use place::{behind, spot, wanted};
pub use terminator::terminator_at;
pub use types::any_type_at;
pub use word::is_constant;
