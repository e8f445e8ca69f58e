//! Images, and what running one means.
//!
//! An [`Image`] is a program in the memory of a processor: code words from a base address on, bytes of data from
//! another, the addresses where a run begins and where it ends, and names of addresses. A text goes in, and
//! [`read`] gives the image that the text spells for a description; [`write`] gives the text back:
//!
//! ```text
//! image T                  the name of the description
//! base 0x00001000          where the code begins, a multiple of the bytes of a word
//! entry 0x00001000         where a run begins
//! stop 0x00001008          where it ends
//! full 0x00001008          where a failed check of the stack goes
//! code 00500093            a line for each code word
//! code 002081b3
//! data 0x00002000          where the data begins
//! bytes 68690a             16 bytes in each line, 1 to 16 in the last
//! symbol loop 0x00001004   a name for an address
//! end
//! ```
//!
//! Each line ends with a line feed. An address has a lower case hexadecimal digit for each four bits of the
//! program counter, and a code word two for each of its bytes. Code and data end at 2 to the width of the program
//! counter at most.
//!
//! **What is proved.** `write` gives the spelling of an image (`spelling`). `read` answers with an image exactly
//! where the text is the spelling of that image (`IsSpelled`), unless memory runs out; a text has at most one such
//! image, and no spelling begins another ([`one_image`]). Any other text is refused at its line (`IsFaultLine`):
//! the first such that no spelling begins with the lines up to and with it, or one more than the number of lines
//! where each is right and more must follow. There is one such line ([`one_line`]).
//!
//! **How a text is read.** A line at a time: what is read so far says which lines may be next, and each line that
//! may be next leaves a front of some spelling.
//!
//! **What running an image means** stands in `specs/`. A state has a program counter, registers and the bytes of
//! memory that aren't 0 (`State`, `IsState`). One step (`step_of`) ends the run at the image's stop, at its full
//! stop, where no code word stands at the program counter, and where no instruction matches the word; otherwise
//! it gives the state after the instruction's writes. A run of at most `n` steps goes on while a step moves: as a
//! relation (`IsRun`) and as a function of `n` (`run_of`), which are one ([`one_run`]). States keep `IsState`
//! from the first state on, which has the image's data ([`states_are_kept`]), and two that read alike are one
//! ([`same_reads`]).
//!
//! **Limits.** Code words and addresses have at most 64 bits.
#![tactic(auto)]

mod ending;
mod image;
mod image_fault;
mod laws;
mod line;
mod progress;
mod reader;
mod refusal;
mod stage;
mod widths;
mod writer;

pub use ending::Ending;
pub use image::{Image, Symbol};
pub use image_fault::ImageFault;
pub use laws::{one_image, one_line, one_run, same_reads, states_are_kept};
pub use reader::read;
pub use writer::write;

#[cfg(test)]
mod longest;
#[cfg(test)]
mod tests;
