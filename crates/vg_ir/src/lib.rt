//! Modules of textual LLVM IR, and what they mean.
//!
//! In goes nothing: the crate has the types of modules, which the reader of IR text gives and the compiler takes, and in
//! `specs/` the definition of their meaning, which the compiler is held to. A [`Module`] has structures, [`Global`]s and
//! [`Function`]s; a function has [`Block`]s, each with its phis, its [`Instruction`]s and its [`Terminator`]. Names carry
//! the number of the text that they are from, and places are offsets in bytes. [`IrFault`] says why a text isn't compiled,
//! and [`What`] names the constructs that aren't accepted.
//!
//! The meaning: `ir_step` leads from a state to the next (`specs/Step`), or tells that the run has ended with a result, that
//! the stack is full, or that the step is undefined for one of ten causes; `ir_run` is so many steps from the start. Both
//! take from outside where things stand (`Placement` in `specs/State`): the width of addresses, the ends of
//! the stack, the addresses of globals, and the sizes and offsets of frames.
//!
//! **What is proved.** A [`Module`] keeps in its type that its parts are as the grammar has them (`is_module`). The few
//! functions on names, numbers and types give exactly what the definitions give. The laws of the meaning are functions
//! without a body: a run comes to at most one end ([`one_end`]); a step is undefined exactly in the ten cases
//! ([`ten_causes`]); what isn't a store, a call, an alloca or a return leaves memory ([`memory_kept`]); values fit their
//! types, bytes are bytes, and frames stand on one another ([`sound_states`]); objects lie apart ([`objects_apart`]).
//!
//! **Limits.** The meaning is defined for types that nest at most 16 brackets deep. That a checked module never reads a
//! value that isn't set is no law of this crate.
//!
//! ```text
//! let module = Module::new(parts);         // parts that are well formed
//! What::DynamicAlloca.text()               // "dynamic alloca"
//! number.modulo(8)                         // 255 for the number -1
//! ```
#![tactic(auto)]

mod block;
mod fault;
mod function;
mod global;
mod initializer;
mod instruction;
mod laws;
mod module;
mod name;
mod number;
mod operand;
mod operator;
mod spot;
mod terminator;
mod ty;
mod what;

pub use block::{Block, Incoming, Phi};
pub use fault::IrFault;
pub use function::{Function, Parameter};
pub use global::{Alignment, Global, Linkage};
pub use initializer::Initializer;
pub use instruction::{
    Alloca, Binary, Call, Cast, Compare, Count, ElementPointer, Freeze, Index, Instruction, Load,
    Select, Store,
};
pub use laws::{memory_kept, objects_apart, one_end, sound_states, ten_causes};
pub use module::{Module, Parts, Structure};
pub use name::{Name, NameAt};
pub use number::Number;
pub use operand::{Operand, TypedOperand, Value};
pub use operator::{BinaryOperator, CastOperator, Predicate};
pub use spot::Spot;
use sqlite_items::Items;
pub use terminator::{Branch, Case, Jump, Return, Switch, Terminator};
pub use ty::{IntegerAt, Ty, TypeAt};
pub use what::What;

/// A text as its bytes, which contracts see as a list.
pub type Text = Items<u8>;
