//! One case, and its run over files and an output in memory.

use crate::text::Named;
use std::alloc::{AllocError, Global};
use std::io;
use vg_io::{MemFiles, MemSink};
use vg_top::{Status, vadlgen};

/// What a case is made of, as far as its lines have been read.
#[derive(Drop)]
pub struct Case {
    pub title: String,
    pub words: String,
    pub files: Vec<Named>,
    /// The most bytes that a put takes.
    pub piece: usize,
    pub failing_loads: Vec<u64>,
    pub failing_puts: Vec<u64>,
}

/// What a run answered.
#[derive(Drop)]
pub struct Outcome {
    pub status: Status,
    pub out: MemSink,
}

impl Case {
    /// A case without words and files, in which nothing fails.
    pub fn new(alloc: Global, title: &str) -> Result<Case, AllocError> {
        Ok(Case {
            title: String::from_str(alloc, title)?,
            words: String::new(alloc),
            files: Vec::new(alloc),
            piece: 1 << 20,
            failing_loads: Vec::new(alloc),
            failing_puts: Vec::new(alloc),
        })
    }

    fn held(&self, alloc: Global) -> Result<Vec<(String, Vec<u8>)>, AllocError> {
        let mut held = Vec::new(alloc);
        for file in self.files.iter() {
            let bytes = Vec::from_slice(alloc, file.text.as_bytes())?;
            held.push((file.name.clone()?, bytes))?;
        }
        Ok(held)
    }

    fn split_words(&self, alloc: Global) -> Result<Vec<String>, AllocError> {
        let mut words = Vec::new(alloc);
        for word in self.words.as_str().split_whitespace() {
            words.push(String::from_str(alloc, word)?)?;
        }
        Ok(words)
    }

    /// Makes the call of the program.
    pub fn run(&self, alloc: Global) -> Result<Outcome, AllocError> {
        let mut files = MemFiles::new(alloc, self.held(alloc)?, self.failing_loads.clone()?);
        let mut out = MemSink::new(alloc, self.piece, self.failing_puts.clone()?);
        let words = self.split_words(alloc)?;
        let status = vadlgen(alloc, words.as_slice(), &mut files, &mut out);
        Ok(Outcome { status, out })
    }
}

impl Outcome {
    /// Whether this status and this text came.
    pub fn is(&self, status: &str, text: &str) -> bool {
        status.parse::<u8>() == Ok(self.status as u8) && self.out.bytes() == text.as_bytes()
    }

    /// Prints the status and the text that came.
    pub fn show(&self, rt: &impl Print, title: &str) -> io::Result<()> {
        let number = self.status as u8;
        println!(rt; "{title}: {number}")?;
        let text = std::str::from_utf8(self.out.bytes()).unwrap_or("no text");
        println!(rt; "{text}")
    }
}
