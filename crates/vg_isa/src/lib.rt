//! The checked description of a processor as the tools read it, and the meaning of its behaviours.
//!
//! An [`Isa`] has the registers, formats and instructions of a description. A behaviour is a list of
//! guarded writes and the next program counter, each made of trees of type [`Expr`]. A tree is
//! evaluated for an instruction word over a [`View`], which stands for a machine state:
//!
//! - [`eval`] gives the value of a tree,
//! - [`made`] the write that an instruction makes, where its guard holds,
//! - [`next_pc`] the program counter after it.
//!
//! **What is proved.** Each of the three gives exactly the value that `specs/` defines by recursion on
//! the tree with the formulas of `vg_bits`: `value_of`, `made_of` and `next_pc_of`. An [`Isa`] keeps in its
//! type what an accepted description keeps (`is_isa` of `specs/Accepted.antt`): every operand in its trees
//! has the width that its place needs, so no evaluator has an error among its answers; fields, writes, reads
//! of memory, the binary interface and the stages keep their rules; and it is within the limits below. Laws:
//! the value of a typed tree in a lawful state is a bit value of its width ([`values_have_widths`]); the
//! test for equal trees tells exactly that ([`same_trees`]).
//!
//! **Limits.** At most 512 instructions, 64 formats, 16 resources with the memory, 64 registers a file, 64
//! bits a word, 128 bits a value. A behaviour has at most 4,096 nodes as written; the trees of an [`Isa`] may
//! have more, since each write has a copy of the conditions that it stands under, and a rewritten comparison
//! adds a complement. Evaluation recurses on a tree.
//!
//! ```text
//! let sum = eval(&isa, &tree, word, &machine);   // the value of the tree for this word in this state
//! ```
#![tactic(auto)]

mod abi;
mod declaration;
mod effect;
mod evaluation;
mod expr;
mod format;
mod ids;
mod instr;
mod isa;
mod laws;
mod operator;
mod view;
mod word_field;
mod write_made;

pub use abi::{Abi, Act, Micro, Stage};
pub use declaration::{PcDecl, RegDecl};
pub use effect::{made, make, next_of, next_pc};
pub use evaluation::eval;
pub use expr::Expr;
pub use format::{FieldDecl, Format};
pub use ids::{FieldId, FormatId, InstrId, RegId, ResourceId};
pub use instr::{Instr, Part, Write};
pub use isa::{Isa, Parts};
pub use laws::{same_trees, values_have_widths};
pub use operator::{BinOp, CastOp, UnOp};
use sqlite_items::Items;
pub use view::View;
pub use word_field::field;
pub use write_made::Made;

/// A text as its bytes, which contracts see as a list.
pub type Text = Items<u8>;
