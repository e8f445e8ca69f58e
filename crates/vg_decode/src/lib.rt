//! Decoders: which instruction of a description a word is.
//!
//! [`build`] takes a checked description and gives its [`Decoder`], or the first two instructions that share a word
//! ([`BuildFault::Overlap`]). [`Decoder::find`] takes a word and gives the instruction that it matches, or None.
//!
//! A decoder is a tree of tests of a word. A test narrows the instructions that may match, and at a leaf one compare
//! of the word under a mask with a value decides, as a rule for one instruction that is left. The tree has a node
//! or two for each instruction of a common set; where many encodings leave different bits free, a leaf may keep more.
//!
//! **What is proved.** `build` gives a decoder exactly where no word matches two instructions, and the decoder finds for
//! each word what the word is (`IsDecoderOf`, `Decodes`). Else it tells the first pair that shares a word, in the order
//! of the text, and the least word that both match (`IsFirstOverlap`). Of these answers one alone is right
//! ([`one_overlap`], [`overlap_is_ambiguous`]). Want of memory is free. `find` takes none and always answers
//! ([`decoder_decodes`]). How large the tree is, and how fast, is not proved.
//!
//! **Limits.** Words have at most 64 bits; a description has at most 512 instructions.
//!
//! ```text
//! let decoder = build(alloc, &isa)?;
//! decoder.find(word)              // Some(i) exactly where the word matches the instruction i, and no other
//! ```
#![tactic(auto)]

mod build_fault;
mod candidate;
mod decoder;
mod growing;
mod laws;
mod pairs;
mod splitting;
mod tree;

pub use build_fault::BuildFault;
pub use decoder::{Decoder, build};
pub use laws::{decoder_decodes, one_overlap, overlap_is_ambiguous};

#[cfg(test)]
mod described;
#[cfg(test)]
mod tests;
