//! The processor that an accepted description stands for.
//!
//! In go a description with what is known of it ([`vg_inline::Plain`], [`vg_type::Setting`]) and the bodies of its functions.
//! Out come the parts of its [`vg_isa::Isa`], unless memory ends ([`make_parts`]). Each part is made by itself too: the
//! program counter ([`counter_of`]), the name of the memory ([`memory_name`]), the registers ([`registers_of`]), the formats
//! with their fields and ranges ([`formats_of`]), the instructions ([`instructions_of`]), the binary interface ([`abi_of`])
//! and the stages ([`micro_of`]); of one instruction the fields that its encoding fixes, with their values ([`fixed_of`]), and
//! its line of assembly ([`template_of`]).
//!
//! The theorem: what is made is exactly `isa_of` of `specs/IsaOf.antt`, and each part what that file says of it. A processor
//! counts bits and registers by a byte and has widths of 1 to 128; that the numbers of a description are such is asked of the
//! caller (`IsHeld` of `specs/Held.antt`). Where the rules of types, ranges and limits are kept, they are; a law that says so,
//! and that what is made keeps what an `Isa` keeps, is open.
//!
//! An instruction is made resource by resource (`specs/Outcome.antt`): the items that its behaviour writes are numbered once
//! each, in the order in which it first names them, and what is written to each is made once. A write of the program counter
//! is what comes next; of the memory reads in all of it the first in the text gives its place.
//!
//! Limits: the encoding and the assembly of an instruction are looked for among all items, at most 512 times each; a behaviour
//! is gone through once for each of its at most 17 resources. What an instruction does is dropped before the next is made.
//!
//! Of `format F : Bits<16> = { a [15..8], b [7..0] }` comes a format `F` with the fields `a`, of the one range (15, 8), and
//! `b`, of (7, 0); of `encoding I = { a = 3 }` for an instruction `I` in it the field `a` with 3 at width 8; and of the
//! behaviour `X(1) := X(2)` a write of `X` with the guard true, the index 1 and the value `X(2)`.
#![tactic(auto)]

mod encoding;
mod fields;
mod formats;
mod instruction;
mod instructions;
mod interface;
mod lists;
mod narrow;
mod numbering;
mod outcome;
mod read_place;
mod reads;
mod registers;
mod role_part;
mod roles;
mod stages;
mod targets;
mod template;
mod tests;
mod text;
mod whole;
mod worth;
mod writes;

pub use encoding::fixed_of;
pub use formats::formats_of;
pub use instructions::instructions_of;
pub use interface::abi_of;
pub use registers::{counter_of, memory_name, registers_of};
pub use stages::micro_of;
pub use template::template_of;
pub use whole::make_parts;
