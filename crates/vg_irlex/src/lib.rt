//! Lexemes of textual LLVM IR.
//!
//! In goes a text of bytes. Out comes the list of its lexemes in order, each with the place of its bytes, and whether it
//! is the first one on its line. Each text has lexemes: what belongs to none of the longer forms is a lexeme of one byte.
//!
//! The theorem: [`lexemes`] answers with the one list of lexemes that the text has, unless memory runs out. Which lexemes a
//! text has is a relation, `Lexes` of `specs/Lexing.antt`: the text is a row of lexemes, white space and comments, and each
//! lexeme is the longest in its place. [`one_list`] says that a text has exactly one list.
//!
//! The main type is [`Lexeme`]; [`piece`] gives the bytes of one. A lexeme is a name with its `%` or `@`, a quoted text, the
//! longest run of letters, digits and `-`, `$`, `.`, `_`, `#`, or one other byte.
//!
//! A text may have any length. The time is linear in it, with no recursion, and a lexeme takes 24 bytes.
//!
//! ```text
//! let found = vg_irlex::lexemes(alloc, b"%x = add i32 1, 2 ; sum")?;
//! // `%x`, `=`, `add`, `i32`, `1`, `,` and `2`, of which the first is the first on its line
//! vg_irlex::piece(text, found.as_slice()[0])    // b"%x"
//! ```
#![tactic(auto)]

mod front;
mod laws;
mod lexeme;
mod lexer;
#[cfg(test)]
mod tests;

pub use laws::one_list;
pub use lexeme::{Lexeme, piece};
pub use lexer::lexemes;
