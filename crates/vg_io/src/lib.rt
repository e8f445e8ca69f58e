//! The outside of the program: where it loads files from, and where it puts its text.
//!
//! A program takes a [`Files`] and a [`Sink`]. A load takes a file's name and the most bytes to
//! give, and gives the first bytes of that file. A put takes a piece of a text, and answers how
//! many of its first bytes were written. [`put_all`] puts a whole text so.
//!
//! What is proved, for every implementation: a load gives exactly the first bytes of the named
//! file, a put appends exactly the bytes that it answers for, and each load that failed, and each put
//! that failed or took nothing, is counted exactly once, and no other. Putting a whole text stops at
//! the first such put. Where an object doesn't tell its bytes, the counts and the bounds still hold.
//!
//! [`MemFiles`] and [`MemSink`] keep bytes in memory, tell them, and fail at the calls that they
//! are told to. [`RealFiles`] and [`RealOut`] are the system's files and standard output, and tell
//! no bytes: what a real file or terminal holds is outside every proof.
//!
//! Counts stand still at 2^64 - 1. Only want of memory may take the place of any other answer; of a load
//! it may be counted as a failure.
//!
//! The traits ask more of an implementation than a reader of files or a writer of text needs: exact counts,
//! beside the bytes. They are what a caller that stops at the first failure can be told by, where bytes
//! aren't told.
//!
//! ```
//! let mut out = MemSink::new(alloc, 2, Vec::new(alloc));
//! put_all(&mut out, b"abc")?;
//! assert_eq!(rt; out.bytes(), b"abc".as_slice());
//! ```
#![tactic(auto)]

mod files;
mod load_fault;
mod mem_files;
mod mem_sink;
mod put_all_fault;
mod put_fault;
mod putting;
mod real_files;
mod real_out;
mod schedule;
mod sink;

pub use files::Files;
pub use load_fault::LoadFault;
pub use mem_files::MemFiles;
pub use mem_sink::MemSink;
pub use put_all_fault::PutAllFault;
pub use put_fault::PutFault;
pub use putting::put_all;
pub use real_files::RealFiles;
pub use real_out::RealOut;
pub use sink::Sink;

#[cfg(test)]
mod tests;
