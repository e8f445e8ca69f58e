//! Instruction words: their fields, the word of an instruction, and which instruction a word is.
//!
//! Words are bit values of the width of the description's formats.
//!
//! - [`field`] reads a field of a word, and [`with_field`] sets it.
//! - [`encode`] gives the word of an instruction with given fields.
//! - [`matches`] tells whether a word matches an instruction: each field that its encoding fixes has its value in
//!   the word. [`pattern_of`] gives the bits that are fixed as a mask and a value, a [`Pattern`].
//!
//! **What is proved.** A field is the number of its ranges' bits, the most significant range first (`field_of` of
//! `vg_isa`). With a field set, the field reads as the value and every other bit stays (`SetsField`); one word alone is
//! that ([`one_setting`]), setting what a field is changes nothing ([`reading_undoes`]), and other fields of the format
//! stay ([`other_fields_stay`]), since they share no bit ([`fields_apart`]). The word of an instruction is matched by
//! it, has the given fields, and is 0 elsewhere (`IsEncoded`); there is one such word ([`one_encoding`]). `matches`
//! answers exactly whether a word matches, and the words that fit a pattern are those that match its instruction
//! (`IsPatternOf`). What a word is, is said by `Decodes` of `specs/Matching.antt`: the one instruction that it matches,
//! or none. At most one answer is right, and where a word matches no two instructions the first that it matches is
//! right (laws [`one_decoding`] and [`first_match`]).
//!
//! **Limits.** Words have at most 64 bits. No call takes memory. Nothing here searches: `vg_decode` does.
//!
//! ```text
//! let word = encode(&isa, addi, &[(rd, one), (imm, five)]);
//! let other = with_field(&isa, rd, word, two);     // field(&isa, rd, other) is two, and the rest is as it was
//! ```
#![tactic(auto)]

mod encoding;
mod field_laws;
mod laws;
mod matching;
mod pattern;
mod setting;

pub use encoding::encode;
pub use field_laws::{fields_apart, one_encoding, one_setting, other_fields_stay, reading_undoes};
pub use laws::{first_match, one_decoding};
pub use matching::matches;
pub use pattern::{Pattern, pattern_of};
pub use setting::with_field;
pub use vg_isa::field;
