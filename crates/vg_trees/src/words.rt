//! Numbers, names and the beginnings of trees.

use std::alloc::{AllocError, Global};
use vg_ast::Name;

/// What a tree begins with: what it is, and its place.
pub fn push_head(alloc: Global, out: &mut String, word: &str, at: usize) -> Result<(), AllocError> {
    let head = format!(in alloc; "({word}@{at}")?;
    out.push_str(head.as_str())
}

pub fn push_number(
    alloc: Global,
    out: &mut String,
    value: u128,
    at: usize,
) -> Result<(), AllocError> {
    let number = format!(in alloc; "{value}@{at}")?;
    out.push_str(number.as_str())
}

pub fn push_characters(out: &mut String, characters: &[char]) -> Result<(), AllocError> {
    for character in characters {
        out.push(*character)?;
    }
    Ok(())
}

pub fn push_name(alloc: Global, out: &mut String, name: &Name) -> Result<(), AllocError> {
    push_characters(out, name.text.as_slice())?;
    let at = name.at;
    let place = format!(in alloc; "@{at}")?;
    out.push_str(place.as_str())
}

/// A name behind a space.
pub fn push_next_name(alloc: Global, out: &mut String, name: &Name) -> Result<(), AllocError> {
    out.push_str(" ")?;
    push_name(alloc, out, name)
}

/// What a tree begins with, and a name.
pub fn push_head_and_name(
    alloc: Global,
    out: &mut String,
    word: &str,
    at: usize,
    name: &Name,
) -> Result<(), AllocError> {
    push_head(alloc, out, word, at)?;
    push_next_name(alloc, out, name)
}
