//! Cases that are too many or too long to be written down: each prefix of a description, and texts at the limit.

use crate::case::{Case, Outcome};
use crate::text::Named;
use std::alloc::{AllocError, Global};
use std::io;

/// A description and an image that are run together.
#[derive(Clone, Copy)]
pub struct Pair<'a> {
    pub description: &'a str,
    pub image: &'a str,
}

fn file(alloc: Global, name: &str, text: &str) -> Result<Named, AllocError> {
    Ok(Named {
        name: String::from_str(alloc, name)?,
        text: String::from_str(alloc, text)?,
    })
}

/// Runs the image with this text of its description.
fn run(alloc: Global, description: &str, image: &str) -> Result<Outcome, AllocError> {
    let mut case = Case::new(alloc, "")?;
    case.words = String::from_str(alloc, "run d.vadl i.image 10")?;
    case.files.push(file(alloc, "d.vadl", description)?)?;
    case.files.push(file(alloc, "i.image", image)?)?;
    case.run(alloc)
}

/// Whether a run is refused as out of the grammar.
fn is_syntax(outcome: &Outcome) -> bool {
    outcome
        .out
        .bytes()
        .starts_with(b"refused: description 1 Syntax at ")
}

/// Runs a description with spaces behind it, which is then so long.
fn show_padded(rt: &impl Print, alloc: Global, pair: Pair<'_>, bytes: usize) -> io::Result<()> {
    let mut padded = String::from_str(alloc, pair.description)?;
    for _ in pair.description.len()..bytes {
        padded.push_str(" ")?;
    }
    let outcome = run(alloc, padded.as_str(), pair.image)?;
    let title = format!(in alloc; "{bytes} bytes")?;
    outcome.show(rt, title.as_str())
}

/// Runs each proper prefix of a description up to its last brace, and counts those that are refused as out of the grammar.
fn show_prefixes(rt: &impl Print, alloc: Global, pair: Pair<'_>) -> io::Result<()> {
    let mut prefix = String::new(alloc);
    let mut all: usize = 0;
    let mut refused: usize = 0;
    let prefixes = pair.description.rfind('}').unwrap_or(0);
    for next in pair.description.chars().take(prefixes.saturating_add(1)) {
        let outcome = run(alloc, prefix.as_str(), pair.image)?;
        if is_syntax(&outcome) {
            refused = refused.saturating_add(1);
        }
        all = all.saturating_add(1);
        prefix.push(next)?;
    }
    println!(rt; "prefixes: {all}, {refused} of them refused as syntax")
}

/// Runs them all.
pub fn show_sizes(rt: &impl Print, alloc: Global, pair: Pair<'_>) -> io::Result<()> {
    show_padded(rt, alloc, pair, 1 << 20)?;
    show_padded(rt, alloc, pair, (1 << 20) + 1)?;
    show_prefixes(rt, alloc, pair)
}
