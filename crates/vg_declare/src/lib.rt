//! The rules of formats, encodings, the binary interface and limits.
//!
//! In goes what is known of a description (`vg_type::Setting`). Out comes the first place at which it breaks a rule, or
//! nothing: a format that doesn't name each of its bits once ([`first_uncovered`]), a field that an encoding names again or
//! gives a value that doesn't fit ([`first_unfit`]), a role of the binary interface ([`first_abi_break`]), and that of which
//! there is too much ([`first_beyond`]).
//!
//! The theorem: each answers exactly the first of the places that `FieldCover`, `FieldValue`, `AbiRole` and `Limit` of
//! `specs/` list. They speak of what is written alone, not of what instructions do.
//!
//! The bits that a format names are kept in one number; names that were met are kept in a hash table. Work is linear in the
//! text. A format may have up to 128 bits.
//!
//! With `format F : Bits<16> = { a [15..8], b [8..0] }` the rule on formats is broken at the name `b`, whose range names
//! bit 8 again.
#![tactic(auto)]

mod abi_part;
mod abi_register;
mod abi_role;
mod counts;
mod field_cover;
mod field_value;
mod limit;
mod mask;
mod span;

pub use abi_role::first_abi_break;
pub use field_cover::first_uncovered;
pub use field_value::first_unfit;
pub use limit::first_beyond;
