//! Reading the pieces of a description: headings, items, roles and stage lines.
//!
//! In goes a piece, a slice of tokens. Out comes the tree that the piece is: an item of the instruction set part, a role of
//! the application binary interface, an item of the micro architecture, or a heading up to its `{`. A piece that is none,
//! or behind which tokens are left, gives `None`.
//!
//! The theorem: unless memory runs out, each reader answers exactly what its rule in `specs/` gives at the tokens of the
//! piece. `Reading` has the rules of headings and whole pieces, `ReadingItem` those of items, `ReadingStatement` of
//! statements, `ReadingRole` of roles and stage lines, and `ReadingRow` of rows, which have commas between their elements
//! and none behind. `Exact` says what these rules are held to: what is read is a tree of the grammar that spells the
//! tokens, and each tree of the grammar is read.
//!
//! The main types are [`Heading`], and the trees of `vg_ast`. In the rules, [`SizedStatement`] and [`SizedGoal`] are trees
//! with their depths.
//!
//! Expressions and statements are read to a depth of 64; a deeper one gives `None`. An `else` belongs to the nearest `if`.
//! Rows and blocks may have any length, and are read by loops.
//!
//! ```
//! let tokens = vg_tok::tokens(alloc, b"stage execute : read X, compute")?;
//! // the stage `execute`, with two acts
//! if let Some(MicroItem::Stage { acts, .. }) = vg_parse_item::micro_item(alloc, tokens.as_slice())? {
//!     println!(rt; "{}", acts.len())?;
//! }
//! ```
#![tactic(auto)]

mod declared;
mod field;
mod fix;
mod found;
mod goal;
mod heading;
mod items;
mod laws;
mod micro_items;
mod part;
mod piece;
mod roles;
mod row;
mod sized;
mod statement;

pub use heading::Heading;
pub use laws::exact;
pub use piece::{abi_heading, closing, isa_heading, item, micro_heading, micro_item, role};
pub use sized::{SizedGoal, SizedStatement};
