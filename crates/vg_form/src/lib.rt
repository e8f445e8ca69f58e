//! The processor of a description, as far as descriptions are built so far.
//!
//! In goes a folded description. Out comes its processor, a [`vg_isa::Isa`], or a [`FormFault`]: the place of the first
//! thing in the text that isn't built yet, as an offset in bytes, or that memory ran out.
//!
//! Built are the descriptions that are of one form with everything in place, whose text is at the head of
//! `specs/Description.antt`: a program counter, a memory, a file of 32 registers of 32 bits and a format of six fields, each
//! just as it stands there, and then 1 to 512 pairs of an instruction and its encoding. An instruction adds two registers,
//! or a register and a field. An encoding has the name of its instruction and fixes three fields by numbers, and no two
//! encodings fix the same. Constants, aliases and functions may stand anywhere among them. Names are ASCII, and no other part
//! of a description follows.
//!
//! The theorem stands on [`isa_of`]: what it answers is `parts_of` of the form that `form_of` of `specs/Description.antt`
//! finds, and it writes no memory; or it is the place that `form_of` tells; or memory ran out.
//!
//! A [`Form`] is what differs from one such description to the next: its name and its [`Pair`]s, each with what its
//! instruction does, a [`Behaviour`]. A [`Shape`] is what a tree with everything in place is, as far as the form asks.
//!
//! Limits: each encoding is compared with those before it, so the time grows with the square of the number of pairs. What an
//! instruction does is made and dropped before the next, up to the first that isn't of the form. The recursion is as deep as
//! the trees, and as there are pairs.
//!
//! Where `encoding ADDI = { f7 = 0, f3 = nine, op = 0x13 }` stands behind the instruction `ADDI`, and `constant nine = 9`, the
//! place of the word `encoding` is told, since `f3` has three bits.
//!
//! ```
//! let isa = vg_form::isa_of(alloc, &plain)?;
//! ```
#![tactic(auto)]

mod build;
mod declaration;
mod declaring;
mod fault;
mod form;
mod leaving;
mod making;
mod naming;
mod pairing;
mod remaining;
mod shape;
mod shaping;

pub use fault::FormFault;
pub use form::{Behaviour, Form, Pair};
pub use making::isa_of;
pub use shape::{Operand, Shape};
