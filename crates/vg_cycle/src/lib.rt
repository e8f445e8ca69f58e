//! What a pipeline is, and why it does what instructions do one at a time.
//!
//! This crate has the definitions and their laws; the code of a cycle comes later. It is written for a designer
//! who knows pipelines: `docs/PIPELINE.md` goes through them with a hazard and a redirect worked out.
//!
//! A pipeline (`Pipe`) has a slot for each stage but the last, from the youngest instruction to the oldest, the
//! contents of each resource, the fetch address, and how many instructions have retired. A slot keeps an
//! instruction's word, its address, what it has read so far, and the address that was guessed for the next
//! fetch. A cycle (`Tick`) gives each slot its turn, from the oldest down: the instruction does its next stage
//! (`Moves`) or stays for a reason (`Stays`); then one is fetched (`Fetches`) or none is (`NoFetch`). What is
//! read comes from where `choose` of `vg_hazard` says (`choice_in`). Guesses may be anything, and so may be what
//! the memory answers to what it is asked.
//!
//! The definitions know of a description (`Description`) only its stages, the instruction at each address, what
//! it reads and names, its guards, values and next program counter, and when they are known. Registers and
//! memory are one notion of resource, with contents by index; the index of memory is the address.
//!
//! **What is proved**, for every description whose stages are in order and whose parts come in time (`IsPlaced`),
//! every run of it (`IsRun`), all guesses and all answers:
//!
//! - [`pipeline_refines`]: a new pipeline stands for the run (`StandsFor`), and each move, each fetch and each cycle
//!   keeps that. So each resource reads as in the run after as many instructions as have passed its write stage,
//!   and the slots hold the run's next instructions up to and with the first wrong guess. The pipeline is over
//!   only where the run is.
//! - [`pipeline_advances`]: after n times the number of stages cycles, and one more for each no of the memory, n
//!   instructions have retired.
//! - [`pipeline_goes_by_reason`]: an instruction can do its next stage exactly where it waits for no location.
//! - [`slots_have_parts`]: what a slot on the path knows of its instruction is what the run has.
//!
//! [`laws_have_instances`] has the laws' premises at pipelines of five stages and of one.
//!
//! **Limits.** Code lies apart from data. Nothing is said of how many cycles a program takes beyond the bound
//! above.
//!
//! ```text
//! stages F R E M W: read in R, compute and decide in E, write in W
//! before   F: add x3,x2,x1   R: addi x2,x0,5   E: -                M: -
//! after    F: -              R: add x3,x2,x1   E: addi x2,x0,5     M: -   the add took 5 of the older one
//! ```
#![tactic(auto)]

mod laws;

pub use laws::{
    laws_have_instances, pipeline_advances, pipeline_goes_by_reason, pipeline_refines,
    slots_have_parts,
};
