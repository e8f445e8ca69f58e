//! Texts of files, and changes of one line of them.

use std::alloc::{AllocError, Global};

/// A text that has a name.
#[derive(Drop)]
pub struct Named {
    pub name: String,
    pub text: String,
}

/// What is done to a line of a text; lines are counted from 1.
#[derive(Clone, Copy)]
pub enum Change<'a> {
    /// This text stands in place of the line.
    Replace(&'a str),
    /// The line goes.
    Remove,
    /// This line stands behind it, behind line 0 in front of all.
    Behind(&'a str),
    /// The line stands so many times.
    Times(usize),
}

fn push_line(text: &mut String, line: &str) -> Result<(), AllocError> {
    text.push_str(line)?;
    text.push_str("\n")
}

fn push_times(text: &mut String, line: &str, count: usize) -> Result<(), AllocError> {
    for _ in 0..count {
        push_line(text, line)?;
    }
    Ok(())
}

/// The text with a line changed. Each of its lines ends with a line feed.
pub fn changed(
    alloc: Global,
    text: &str,
    number: usize,
    change: Change<'_>,
) -> Result<String, AllocError> {
    let mut made = String::new(alloc);
    if let (0, Change::Behind(added)) = (number, change) {
        push_line(&mut made, added)?;
    }
    for (k, line) in text.split_terminator('\n').enumerate() {
        let here = k.checked_add(1) == Some(number);
        match change {
            Change::Replace(other) if here => push_line(&mut made, other)?,
            Change::Remove if here => {}
            Change::Times(count) if here => push_times(&mut made, line, count)?,
            Change::Behind(added) if here => {
                push_line(&mut made, line)?;
                push_line(&mut made, added)?;
            }
            _ => push_line(&mut made, line)?,
        }
    }
    Ok(made)
}

/// The text of this name, or an empty one.
pub fn find<'a>(texts: &'a [Named], name: &str) -> &'a str {
    for named in texts {
        if named.name.as_str() == name {
            return named.text.as_str();
        }
    }
    ""
}
