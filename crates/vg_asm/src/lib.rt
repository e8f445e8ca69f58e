//! Words as lines of assembly.
//!
//! [`push_line`] appends the line of a word to a text that the caller keeps, and [`line_of`] gives it by itself.
//! `specs/Shown.antt` says what that is: the line, as vg_grammar defines it, of the instruction that the word matches,
//! with the word's values for the fields of its format; `-` where the instruction has no template; and nothing where the
//! word matches no instruction.
//!
//! **What is proved.** Both give exactly that, for every description and every decoder of it. Want of memory is free, and
//! nothing is said of the text of `push_line` behind it. No function recurses, and `push_line` takes memory only where
//! the text has no room for the line; that it is linear, and its speed, is not proved.
//!
//! `specs/Listing.antt` defines the listing of an image's code, a line for each code word. No function makes it yet.
//!
//! **Limits.** Words have at most 64 bits. A distance has at most 127 bits.
//!
//! ```text
//! let decoder = build(alloc, &isa)?;
//! push_line(&mut text, &isa, &decoder, word)?;    // `addi x1,x0,5`, and true
//! ```
#![tactic(auto)]

mod line;
mod number;
mod part;
mod touching;

pub use line::{line_of, push_line};
