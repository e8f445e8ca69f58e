//! From the tokens of a processor description to its tree.
//!
//! In goes a list of tokens. Out comes the tree of the description that they are, or the place where they leave the
//! grammar: the first token of the first piece such that the pieces up to and with it begin no description, or the end of
//! the last token, where the text only stops too early. The pieces of a text are its headings, items, roles, stage lines
//! and closing braces.
//!
//! The theorem: [`parse`] answers `Ok` exactly where the tokens are a description of the grammar, with its tree, and else
//! `Err` with the place, unless memory runs out. The grammar is that of `vg_ast`: `Reads` says which tokens have which
//! tree, and `LeavesAt` at which place other tokens leave the grammar. [`one_tree`] says that tokens have one tree at
//! most, one place at most, one of the two always, and never both.
//!
//! The main types are `vg_ast`'s `Desc` and [`ParseFault`]. Within the crate a `State` holds what is read so far: a text is
//! read a piece after another, each by the reader of `vg_parse_item` that the state asks for. `specs/Run.antt` has this reading
//! as a function on pieces.
//!
//! A text may have any length, and what its items hold may be nested 64 deep. There is no recursion on the text. Each
//! token is looked at once to find the end of its piece, and then by the readers of that piece.
//!
//! ```
//! let tokens = vg_tok::tokens(alloc, b"instruction set architecture A = { constant n = 2 }")?;
//! let desc = vg_parse::parse(alloc, tokens.as_slice())?;
//! // desc.items is [Constant { at: 35, name: n at 44, value: Number { value: 2, at: 48 } }], and desc.close is 50
//! ```
#![tactic(auto)]

mod cutting;
mod fault;
mod laws;
mod parser;
mod state;
mod stepping;

pub use fault::ParseFault;
pub use laws::one_tree;
pub use parser::parse;
