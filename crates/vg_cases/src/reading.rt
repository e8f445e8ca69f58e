//! A table of cases, from its text. A line that begins with `@@ ` tells what follows: up to the next such line, the lines
//! of a text, of a file or of an answer.
//!
//! ```text
//! @@ text T                     a text with a name; its lines follow
//! @@ case TITLE
//! @@ words run d.vadl i.image 10
//! @@ file d.vadl: use T         a file; a named text, or the lines that follow
//! @@ with line 7 = TEXT         changes the last file: also `line behind 7 = TEXT`, `no line 7`, `line 7 times 100`,
//!                               and `no last line feed`
//! @@ pieces 16                  the most bytes that a put takes
//! @@ failing-loads 0            which loads fail, counted from 0, and so `failing-puts`
//! @@ answer 1                   the status; the lines that follow are what is written
//! @@ cut-answer 4               the same where the last of them has no line feed
//! ```

use crate::case::Case;
use crate::text::{Change, Named, changed, find};
use std::alloc::{AllocError, Global};
use std::io;

/// How many cases a table has, and how many came as they are written.
#[derive(Clone, Copy)]
pub struct Counts {
    pub all: usize,
    pub right: usize,
}

/// What was read of a table so far: its named texts, the case that is open, and the counts.
#[derive(Drop)]
struct Table {
    texts: Vec<Named>,
    case: Case,
    counts: Counts,
}

/// The numbers that stand in a text, between spaces.
fn numbers(alloc: Global, text: &str) -> Result<Vec<u64>, AllocError> {
    let mut numbers = Vec::new(alloc);
    for word in text.split_whitespace() {
        if let Ok(number) = word.parse::<u64>() {
            numbers.push(number)?;
        }
    }
    Ok(numbers)
}

/// A line number and what stands behind ` = `.
fn numbered(text: &str) -> Option<(usize, &str)> {
    let (number, line) = text.split_once(" = ")?;
    Some((number.parse::<usize>().ok()?, line))
}

/// A line number and how many times the line is to stand: `7 times 100`.
fn repeated(text: &str) -> Option<(usize, Change<'_>)> {
    let (number, count) = text.split_once(" times ")?;
    let count = count.parse::<usize>().ok()?;
    Some((number.parse::<usize>().ok()?, Change::Times(count)))
}

/// A change of a line: `line 7 = TEXT`, `line behind 7 = TEXT`, `line 7 times 100`, or `no line 7`.
fn change_of(text: &str) -> Option<(usize, Change<'_>)> {
    if let Some(rest) = text.strip_prefix("line behind ") {
        let (number, line) = numbered(rest)?;
        return Some((number, Change::Behind(line)));
    }
    if let Some(rest) = text.strip_prefix("line ") {
        return match numbered(rest) {
            Some((number, line)) => Some((number, Change::Replace(line))),
            None => repeated(rest),
        };
    }
    let rest = text.strip_prefix("no line ")?;
    Some((rest.parse::<usize>().ok()?, Change::Remove))
}

impl Table {
    fn new(alloc: Global) -> Result<Table, AllocError> {
        Ok(Table {
            texts: Vec::new(alloc),
            case: Case::new(alloc, "")?,
            counts: Counts { all: 0, right: 0 },
        })
    }

    fn add_text(&mut self, alloc: Global, name: &str, body: &str) -> Result<(), AllocError> {
        let named = Named {
            name: String::from_str(alloc, name)?,
            text: String::from_str(alloc, body)?,
        };
        self.texts.push(named)?;
        Ok(())
    }

    /// A file `NAME`, whose text follows, or `NAME: use TEXT`.
    fn add_file(&mut self, alloc: Global, line: &str, body: &str) -> Result<(), AllocError> {
        let (name, text) = match line.split_once(": use ") {
            Some((name, used)) => (name, find(self.texts.as_slice(), used)),
            None => (line, body),
        };
        let file = Named {
            name: String::from_str(alloc, name)?,
            text: String::from_str(alloc, text)?,
        };
        self.case.files.push(file)?;
        Ok(())
    }

    /// Changes the last file.
    fn change_file(&mut self, alloc: Global, line: &str) -> Result<(), AllocError> {
        let Some(mut file) = self.case.files.pop() else {
            return Ok(());
        };
        if line == "no last line feed" {
            file.text.pop();
        } else if let Some((number, change)) = change_of(line) {
            file.text = changed(alloc, file.text.as_str(), number, change)?;
        }
        self.case.files.push(file)?;
        Ok(())
    }

    /// Runs the case, and counts it.
    fn answer(
        &mut self,
        rt: &impl Print,
        alloc: Global,
        status: &str,
        body: &str,
    ) -> io::Result<()> {
        let outcome = self.case.run(alloc)?;
        self.counts.all = self.counts.all.saturating_add(1);
        if outcome.is(status, body) {
            self.counts.right = self.counts.right.saturating_add(1);
            return Ok(());
        }
        outcome.show(rt, self.case.title.as_str())
    }

    /// Does what a section says: its first line, and the lines behind it.
    fn read(&mut self, rt: &impl Print, alloc: Global, line: &str, body: &str) -> io::Result<()> {
        let (word, rest) = line.split_once(" ").unwrap_or((line, ""));
        match word {
            "text" => self.add_text(alloc, rest, body)?,
            "case" => self.case = Case::new(alloc, rest)?,
            "words" => self.case.words = String::from_str(alloc, rest)?,
            "file" => self.add_file(alloc, rest, body)?,
            "with" => self.change_file(alloc, rest)?,
            "pieces" => self.case.piece = rest.parse::<usize>().unwrap_or(0),
            "failing-loads" => self.case.failing_loads = numbers(alloc, rest)?,
            "failing-puts" => self.case.failing_puts = numbers(alloc, rest)?,
            "answer" => return self.answer(rt, alloc, rest, body),
            "cut-answer" => {
                let cut = body.strip_suffix("\n").unwrap_or(body);
                return self.answer(rt, alloc, rest, cut);
            }
            "" => {}
            _ => return println!(rt; "no word of a table: {line}"),
        }
        Ok(())
    }
}

/// Runs each case of a table.
pub fn run_table(rt: &impl Print, alloc: Global, text: &str) -> io::Result<Counts> {
    let mut table = Table::new(alloc)?;
    let mut line = String::new(alloc);
    let mut body = String::new(alloc);
    for next in text.split_terminator('\n') {
        match next.strip_prefix("@@ ") {
            None => {
                body.push_str(next)?;
                body.push_str("\n")?;
            }
            Some(begun) => {
                table.read(rt, alloc, line.as_str(), body.as_str())?;
                line = String::from_str(alloc, begun)?;
                body = String::new(alloc);
            }
        }
    }
    table.read(rt, alloc, line.as_str(), body.as_str())?;
    Ok(table.counts)
}
