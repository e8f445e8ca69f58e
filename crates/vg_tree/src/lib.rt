//! Which trees of a processor stand for expressions with everything in place, and what an instruction writes.
//!
//! In goes an expression or statement with everything in place (`vg_inline::Tree`, `vg_inline::Effect`), and what an
//! instruction sees ([`Frame`]: the fields of its format, and what each item is as a resource). Out comes the tree of a
//! processor that stands for the expression, with its sort and the readings of memory in it ([`make`], [`Made`]), and what
//! a statement writes to a resource: its guard, index or address, and value ([`written_to`], [`Written`]).
//!
//! The theorem: [`make`] gives exactly `made` of `specs/Made.antt`, and [`written_to`] exactly `written` of
//! `specs/Written.antt`. By the law [`made_is_typed`] what is made is typed, whatever it stands for. [`same_tree`] tells
//! whether two trees are the same.
//!
//! Signedness goes into the operators, whole numbers become constants at the width that their place asks for, and `!=`,
//! `<=`, `>` and `>=` are written by `=` and `<`. `Access` defines which behaviours write a resource twice, read or write
//! memory at two addresses or in two sizes, and which indices are no fields.
//!
//! Frames are worked out once for a description ([`work_out_machine`], [`frame_of`]). Trees are made and dropped by one
//! instruction at a time; work is linear in their nodes. The recursion is as deep as a behaviour.
//!
//! With `X(1) <s X(2)` over registers of 32 bits, the tree is a signed `<` of two reads, of width 1.
#![tactic(auto)]

mod accesses;
mod casts;
mod choosing;
mod comparing;
mod constants;
mod copying;
mod formats;
mod frame;
mod framing;
mod guards;
mod joins;
mod laws;
mod leaves;
mod looking;
mod machine;
mod made;
mod making;
mod number;
mod operators;
mod reading;
mod resource;
mod resources;
mod targets;
mod writing;
mod written;

pub use comparing::same_tree;
pub use formats::work_out_fields;
pub use frame::Frame;
pub use framing::frame_of;
pub use laws::made_is_typed;
pub use machine::Machine;
pub use made::Made;
pub use making::make;
pub use number::{value_or, width_or};
pub use reading::Reading;
pub use resource::Resource;
pub use resources::{work_out_machine, work_out_resources};
pub use writing::written_to;
pub use written::Written;
