//! Tokens of a processor description.
//!
//! In goes a text of bytes. Out comes the list of its tokens in order, each with the place of its bytes, or the first
//! fault of the text: a byte that is no UTF-8, a character that is no part of a token, or a number that is too wide.
//!
//! The theorem: [`tokens`] answers `Ok` exactly where the text has a list of tokens, with that list, and else `Err` with
//! the first fault, unless memory runs out. Which tokens a text has is a relation, `Lexes` of `specs/Lexing.antt`: the
//! text is a row of tokens, white space and comments, and each token is the longest in its place. Which fault is the
//! first is the relation `IsFault` beside it. The words and signs are tables in `specs/Tables.antt`. [`one_reading`] says
//! that a text has one list of tokens at most, one first fault at most, and never both.
//!
//! The main types are [`Token`], its [`Kind`], and [`TokFault`]. Characters of names and strings are [`Chars`], a `Vec`
//! that contracts see as a list.
//!
//! A text may have any length. The time is linear in it, with no recursion. While a text is read its characters are held
//! as a `Vec<char>`, four bytes for each.
//!
//! ```
//! let found = vg_tok::tokens(alloc, b"X(rd) := 0x1F // set")?;
//! // X ( rd ) := 31, at the bytes 0..1, 1..2, 2..4, 4..5, 6..8 and 9..13
//! for token in found.as_slice() {
//!     if let Kind::Number(value) = &token.kind {
//!         println!(rt; "{value} at byte {}", token.start)?;
//!     }
//! }
//! ```
#![tactic(auto)]

mod decode;
mod fault;
mod laws;
mod lexeme;
mod lexer;
mod number;
mod sign;
mod table;
#[cfg(test)]
mod tests;
mod token;
mod word;

pub use fault::TokFault;
pub use laws::one_reading;
pub use lexer::tokens;
pub use sign::Sign;
pub use token::{Chars, Kind, Token};
pub use word::Word;
