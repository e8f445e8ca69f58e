//! What the instructions of a description are written as in assembly, and when two are written alike.
//!
//! So far there are the definitions alone. `specs/Lexeme.antt` says how a line is split into lexemes, `specs/Line.antt` what
//! each part of a line says of a field's value and which line an instruction has with values for its fields; a text reads as
//! that instruction with those values where it has the same lexemes. `specs/Ambiguous.antt` says when a text reads in two
//! ways, and which pair of instructions is the first for which there is such a text.
//!
//! [`worked_lines`] has some lines and texts of parts, as they compute. [`RulesFault`] is what a reader of lines will answer for a description in which there is one: the pair, and a text that
//! reads as both.
//!
//! With the parts `"add "`, `register(X(rd))`, `","` and `signed(imm)` an instruction with rd = 1 and imm = 4095, of 12 bits,
//! is written `add x1,-1`; the text `add  x1 , -1` reads as it too.
#![tactic(auto)]

mod fault;
mod laws;

pub use fault::RulesFault;
pub use laws::worked_lines;
