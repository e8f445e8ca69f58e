//! Numbers and pieces of text, as the image reader, the reports and the assembler share them.
//!
//! A text is bytes. `number` writes a number at the end of a `Vec<u8>`, in hexadecimal of a fixed length or
//! in decimal, and reads one at the front of a slice; `piece` writes bytes, and finds what follows a prefix
//! and the first line. A reader hands on parts of the slice that it was given and copies nothing. A writer
//! that finds no memory leaves the text as it was.
//!
//! The theorem: what is read is what would be written, and what is written is read again, whatever
//! follows it. `number::hexadecimal_reads_back`, `number::decimal_reads_back`, `piece::prefix_reads_back`
//! and `piece::line_reads_back` state it of the words that the contracts of all other functions give as
//! their answers.
//!
//! There are no types of the crate's own. Hexadecimal digits are in lower case, up to 32 of them; a decimal
//! number has up to 64 bits, no sign and no zero in front; a line ends with a line feed.
//!
//! ```text
//! push_bytes(&mut out, b"pc 0x")?;
//! push_hexadecimal(&mut out, 8, 0x1008)?; // out is `pc 0x00001008`
//! let digits = rest_after(b"pc 0x", out.as_slice())?; // `00001008`
//! let (pc, rest) = hexadecimal_at(digits, 8)?; // 0x1008, and an empty rest
//! ```
#![tactic(auto)]

pub mod number;
pub mod piece;
#[cfg(test)]
mod tests;
