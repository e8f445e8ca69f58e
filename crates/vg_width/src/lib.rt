//! The rules of types, formats, encodings, behaviours, the binary interface, stages and limits, in their order.
//!
//! In goes a description that keeps the rules of names, constants and the number of nodes, with what is known of its
//! items (`vg_inline::Plain`). Out comes the first of these rules that it breaks, at its first place, or nothing
//! ([`check`]). `specs/Rules.antt` has for each rule the list of places at which a description breaks it (`places_of`,
//! in the order of the text), the order in which the rules are asked, and the processor that it stands for where it
//! keeps them all (`isa_of`, of vg_processor).
//!
//! The theorem: `check` answers nothing exactly where these rules are kept, and else exactly the first that is broken. A
//! law says that a description keeps all rules or breaks exactly one of them first ([`one_answer`]).
//!
//! Each rule has a function of its own in a crate below, that answers exactly its first place: types and ranges in vg_type,
//! formats, encodings, the binary interface and limits in vg_declare, indices and stages in vg_stage, two writes and two
//! accesses in vg_access.
//!
//! With `format F : Bits<16> = { a [15..8], b [8..0] }` the rule `FieldCover` is broken at the name `b`, whose range
//! names bit 8 again.
#![tactic(auto)]

mod checking;
mod laws;

pub use checking::check;
pub use laws::one_answer;
