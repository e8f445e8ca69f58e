//! A table of texts and their trees: each row of data/texts.txt has a title and a text, and for each it prints the
//! title, and the tree of the text in a plain form, or the place where the text leaves the grammar. Each tree in
//! parentheses begins with what it is and the offset of its place, as `(+@2 a@0 1@4)` for `a + 1`. The trees in the
//! file stdout come from a reader of the same grammar that was written apart, in another language.
#![tactic(auto)]

mod expression;
mod item;
mod section;
mod statement;
mod words;

use section::push_description;
use std::alloc::Global;
use std::{fs, io};
use vg_parse::{ParseFault, parse};
use vg_tok::{TokFault, tokens};

/// The line and the column of an offset in a text, both from 1; columns are counted in bytes.
fn place_of(text: &[u8], at: usize) -> (usize, usize) {
    let (front, _) = text.split_at(at.min(text.len()));
    let lines = front.iter().filter(|byte| **byte == b'\n').count();
    let columns = front
        .iter()
        .rev()
        .take_while(|byte| **byte != b'\n')
        .count();
    (lines.saturating_add(1), columns.saturating_add(1))
}

fn show_place(rt: &impl Print, what: &str, text: &[u8], at: usize) -> io::Result<()> {
    let (line, column) = place_of(text, at);
    println!(rt; "{what} at {line}:{column}")
}

/// Prints the tree of a text, or its first fault.
fn show_text(rt: &impl Print, alloc: Global, text: &[u8]) -> io::Result<()> {
    let found = match tokens(alloc, text) {
        Ok(found) => found,
        Err(TokFault::NotUtf8 { at } | TokFault::BadChar { at } | TokFault::Wide { at }) => {
            return show_place(rt, "no token", text, at);
        }
        Err(TokFault::OutOfMemory) => return println!(rt; "no memory"),
    };
    match parse(alloc, found.as_slice()) {
        Ok(description) => {
            let mut out = String::new(alloc);
            push_description(alloc, &mut out, &description)?;
            println!(rt; "{out}")
        }
        Err(ParseFault::Syntax { at }) => show_place(rt, "no tree", text, at),
        Err(ParseFault::OutOfMemory) => println!(rt; "no memory"),
    }
}

fn main(rt: HostRuntime) -> io::Result<()> {
    let alloc = rt.alloc();
    let rows = fs::read_to_string(&rt, "texts.txt")?;
    for row in rows.as_str().split("########\n") {
        let mut parts = row.splitn(2, "====\n");
        let title = parts.next().unwrap_or("");
        let text = parts.next().unwrap_or("");
        print!(rt; "{title}")?;
        show_text(&rt, alloc, text.as_bytes())?;
    }
    Ok(())
}
