//! Where the parts of instructions come in a pipeline, and when each stage is done.
//!
//! A micro architecture says in which stage a resource is read and written, in which operators are computed, and
//! in which the next program counter is decided. By that each tree of a behaviour has a stage in which its value
//! is there (`stage_of`): the greatest of its parts' stages and its own, which is 0 for fields, constants and the
//! program counter, the read stage for a register or the memory, and the compute stage for an operator or a
//! conditional; casts, slices and joins take no time.
//!
//! [`stages`] takes a description that has a micro architecture, and gives its plan: which stage does what
//! ([`Stages`]), and the stages of the guard, the index or address and the value of each write, and of the guard
//! and the value of the next program counter ([`InstrPlan`]). A part that is ready later than the stage that needs it
//! is told ([`PlaceFault::Unplaced`]): a write's parts are needed in its resource's write stage, the address of a memory
//! read in the memory's read stage, and the next program counter in the stage that decides on it.
//!
//! **What is proved.** `stages` gives the plan of the definitions (`plan_of`), and only where the stages are in order and
//! no part comes too late (`IsInOrder`). It tells a part exactly where one comes too late, and then the first one
//! (`IsFirst`): by its place in the text, then by its instruction, then by the stage that needs it. Want of memory is
//! free. The rule on the order of stages is one that each accepted description keeps, so it is in order exactly where no
//! part comes too late ([`accepted_is_in_order`]).
//!
//! `specs/Time.antt` defines in which cycle each executed instruction does each stage (`entry_cycle`), where the memory
//! never says no. When a location can be had is the greatest of its terms ([`location_terms`]). Each stage takes a cycle at
//! least, no two instructions are in one stage in one cycle, and none is fetched before a wrong guess is decided
//! ([`cycles_keep_order`]). That a pipeline keeps this time isn't proved yet.
//!
//! **Limits.** A part without a place of its own in the text counts as standing at its start.
//!
//! ```text
//! stages F R E M W: read X in R, compute in E, read MEM in M, write X in W
//! X(rs1) + imm                    stage E: an operator on a register
//! MEM<4>(X(rs1) + imm)            stage M: its address is there in E, in time
//! ```
#![tactic(auto)]

mod acts;
mod late;
mod laws;
mod place_fault;
mod placing;
mod plan;
mod stage_table;
mod timing;

pub use laws::{accepted_is_in_order, cycles_keep_order, location_terms, values_agree};
pub use place_fault::PlaceFault;
pub use placing::stages;
pub use plan::{InstrPlan, NextPlan, Plan, WritePlan};
pub use stage_table::{Access, Stages};
