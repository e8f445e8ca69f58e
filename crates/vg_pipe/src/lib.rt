//! The laws of the pipeline, of each accepted description.
//!
//! The laws of `vg_cycle` are over a record of what they need of a description: which instruction stands at an
//! address, what it reads, names, decides, writes and asks for, and in which stages these are known. Here a processor
//! (`vg_isa`) with its image is given as such a record (`seen`), by its trees and by the stages that `vg_place` gives
//! them. The memory is resource 0, whose index is the address; the r-th register or register file is resource r + 1.
//!
//! **What is proved.** [`description_is_placed`]: where `vg_place::stages` gives a plan of an accepted description, the
//! record is placed (`IsPlaced`): resources are read no later than they are written, and written no earlier than the
//! next program counter is decided; each guard, value, next program counter and ask is known in its stage, that is, it
//! is the same for any two views that agree on what the instruction reads up to that stage.
//!
//! So of its pipeline: an instruction can do its next stage exactly where it waits for no location
//! ([`description_goes_by_reason`]), and what a slot on the path knows of its instruction is right
//! ([`description_has_parts`]).
//!
//! Of the run of an image, one instruction at a time (`run_from`): behind each instruction stand the program counter, the
//! registers and the memory that the record gives it ([`run_is_of_description`]). So the pipeline stands for the run of
//! the image, from its first state or any other, after every cycle ([`description_is_refined`]), and n instructions
//! have retired after n times the number of stages cycles, and one more for each no of the memory
//! ([`description_advances`]).
//!
//! [`laws_have_instances`] has what the laws ask for at a processor with a pipeline of five stages and of one.
//!
//! **Limits.** The register that reads as 0 is read like any other; no write names it, so it is never waited for.
//!
//! ```text
//! stages F R E M W: read X in R, compute in E, write X in W
//! add, X(rd) := X(rs1) + X(rs2)   reads X at rs1 and rs2 in R; its value is known in E, and is written in W
//! ```
#![tactic(auto)]

mod laws;

pub use laws::{
    description_advances, description_goes_by_reason, description_has_parts, description_is_placed,
    description_is_refined, laws_have_instances, run_is_of_description,
};
