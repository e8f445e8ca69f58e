//! The rules of what an instruction writes twice, and reads of memory in two ways.
//!
//! In goes a description with what is known of it (`vg_inline::Plain`, `vg_type::Setting`), and the bodies of its functions.
//! Out comes the first place at which a rule is broken, or nothing: of [`first_two_writes`] the name that is written where
//! its path wrote it before, or another path at another index, address or size; of [`first_two_accesses`] the name of the
//! memory in a read in front of which, or at which, one with another address or size stands.
//!
//! The theorem: each answers exactly the first of the places that are listed by `two_writes` and `two_accesses` (`Access`
//! of vg_tree), unless memory ends. These speak of what instructions do with everything in place, and compare indices and
//! addresses as trees of a processor.
//!
//! Of writes, those in front on the path of a statement and those on other paths are kept apart (`second_write`). Reads
//! are gathered, and the first of them in the text is found; those that are unlike it are the second ones, and the least
//! of their places is told, since to be alike is to be equal in address and size. So no two others are compared. What an
//! instruction does is made, asked and dropped before the next is made. Each read has its address as a tree of its own, so
//! an address in addresses is made once for each of these; each write is compared with those in front of it.
//!
//! With `X(rd) := (MEM<4>(X(a)) + MEM<4>(X(b))) as Bits<32>` the rule of accesses is broken at the second `MEM`, and with
//! `{ X(a) := PC X(b) := PC }` that of writes at the second `X`.
#![tactic(auto)]

mod following;
mod gathering;
mod second_reading;
mod second_write;
mod two_accesses;
mod two_writes;
mod write;
mod writing;

pub use two_accesses::first_two_accesses;
pub use two_writes::first_two_writes;
