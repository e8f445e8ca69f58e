//! The rules of indices and of the order of stages.
//!
//! In goes a description with what is known of it (`vg_inline::Plain`, `vg_type::Setting`), and the bodies of its functions.
//! Out comes the first place at which a rule is broken, or nothing: an index of a register that isn't made of fields,
//! constants and casts alone ([`first_index_not_field`]), and an act of the micro architecture that comes in the wrong stage,
//! is there twice, or lacks ([`first_stage_break`]).
//!
//! The theorem: each answers exactly the first of the places that are listed by `indices_not_fields` (`Access` of vg_tree) and
//! by `stage_breaks` (`specs/StageOrder.antt`). Both speak of what instructions do with everything in place.
//!
//! What an instruction does is made, asked and dropped before the next is made; acts are met in a hash table. Work is
//! linear in the text and the nodes of behaviours.
//!
//! With the stages `A = read X` and `B = write X` in this order the rule is kept; with `B` in front it is broken at `read`.
#![tactic(auto)]

mod act_kind;
mod earliest;
mod index_field;
mod indices;
mod stage_act;
mod stage_lack;
mod stage_met;
mod stage_order;
mod stage_uses;
mod write_stages;

pub use index_field::first_index_not_field;
pub use stage_order::first_stage_break;
