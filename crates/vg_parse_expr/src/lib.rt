//! Reading the expressions and types of a description.
//!
//! In go the tokens of a text from some place on. Out comes the expression or the type that they begin with, as a tree of
//! [`vg_ast`] with the level of its operator and its depth, and the tokens behind it; or None, where they don't begin so.
//!
//! The theorem: a tree is read exactly where the grammar of `vg_ast` has it. [`expression`] and [`type_expr`] are equal to
//! functions on lists (`specs/Reading.antt`), and [`exact`] says of these: what is read is a concrete tree of the
//! grammar, no looser than the level that was asked for and no deeper than 64, that the tokens in front spell; and each
//! such tree is read, where it ends (`specs/Exact.antt` says what may stand behind it).
//!
//! The main types are [`Operand`], an expression that was read, and [`SizedType`]. Expressions are read by precedence
//! climbing: the first operand, and then what it goes on with ([`Infix`]), while the levels allow. Behind `NAME <` the
//! tokens are looked over once for the `>` and the `(` of an access to memory.
//!
//! The recursion is as deep as the tree, at most 64; arguments and operators are read by loops. The time is linear in the
//! tokens, but for the looking over, which meets a token at most as often as the tree is deep. The only error is want of
//! memory.
//!
//! ```text
//! // `2 * x as Bits<8> }`: the product of 2 and a cast, and the tokens from `}` on
//! let found = vg_parse_expr::expression(alloc, 0, tokens)?;
//! ```
#![tactic(auto)]

mod expressions;
mod infix;
mod laws;
mod lexeme;
mod lookahead;
mod operand;
mod operands;
mod reader;
mod rest;
mod trees;
mod types;

pub use expressions::{expression, type_expr};
pub use infix::Infix;
pub use laws::exact;
pub use lexeme::{begins_with, begins_with_word, name_at, sign_at, word_at};
pub use lookahead::{Passing, Search};
pub use operand::{Operand, SizedType};
