//! Tables of cases: what the program must answer to words and files. A table stands in a file of data/, one a theme; a
//! case has a title, the words, the files and the answer, side by side (docs/CHECKS.md says how one is written). For each
//! table it prints how many of its cases came as they are written, and of each that didn't what came.
//! Behind the tables come descriptions of the greatest length and one byte more, and each prefix of a description.
#![tactic(auto)]

mod case;
mod reading;
mod sizes;
mod text;

use crate::sizes::{Pair, show_sizes};
use std::alloc::Global;
use std::{fs, io};

/// The tables, in the order in which they are run.
const TABLES: [&str; 7] = [
    "running.cases",
    "descriptions.cases",
    "images.cases",
    "words.cases",
    "failing.cases",
    "checking.cases",
    "long.cases",
];

/// The tables that scripts of tools/ make.
const MADE_TABLES: [&str; 4] = ["forms.cases", "rules.cases", "lines.cases", "widths.cases"];

fn show_table(rt: &impl Print, alloc: Global, name: &str, text: &str) -> io::Result<()> {
    let counts = reading::run_table(rt, alloc, text)?;
    println!(rt; "{name}: {} of {}", counts.right, counts.all)
}

fn main(rt: HostRuntime) -> io::Result<()> {
    let alloc = rt.alloc();
    for name in TABLES {
        let text = fs::read_to_string(&rt, name)?;
        show_table(&rt, alloc, name, text.as_str())?;
    }
    for name in MADE_TABLES {
        let text = fs::read_to_string(&rt, name)?;
        show_table(&rt, alloc, name, text.as_str())?;
    }
    let description = fs::read_to_string(&rt, "two.vadl")?;
    let image = fs::read_to_string(&rt, "two.image")?;
    let pair = Pair {
        description: description.as_str(),
        image: image.as_str(),
    };
    show_sizes(&rt, alloc, pair)
}
