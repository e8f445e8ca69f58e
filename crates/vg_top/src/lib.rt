//! The program behind its command line: words, files and an output go in; a status comes out, and the output
//! has the report, the refusal line or the line of usage.
//!
//! [`vadlgen`] is the one public call. `check D` reads the description in the file D, asks its rules, and writes its
//! name and how many instructions it has. `run D I N` reads the description in D and
//! the image in the file I, runs the image for at most N instructions, and writes how the run stands and the state. Any
//! other words are usage.
//!
//! **The theorem** stands on [`vadlgen`], as the record `Meets` of `specs/Theorem.antt`. Where the files tell their bytes,
//! what is written is an answer to the words, which `specs/Commands.antt` defines, with a page for each command: the
//! report is that of the description, or of the run of instruction steps; a description is refused exactly by the first
//! rule that it breaks, at its first place, or by what isn't built yet; any file is refused exactly where it is too long
//! or is no text of its form; and a file is asked for only where all before it were accepted. The first load that fails
//! ends the call with a read fault, with which nothing is written and no other file is asked for. The whole text of an
//! answer is written with its status, unless a put failed or no memory was left, and then a prefix of it; only for want of
//! memory no answer is made. The first put that fails or takes nothing ends the call with a write fault. That words and
//! files have one answer is the law [`one_answer`]. Each text is the description of one processor, or breaks exactly one rule
//! first at one place, or has one first place that isn't built yet: the law [`one_description`]; and [`one_reason`] says the
//! same of a text and what a command needs of it.
//!
//! **How it is built.** A command is a [`task::Task`]: it asks for a file within a limit, and goes on with the bytes, to
//! another file or to its answer. It sees no files itself. `driver::drive` is the one loop that loads them, and carries
//! what is said of files once, whatever the command. A new command is a file in `src/commands/`, its definition in
//! `specs/Commands/`, and an entry in the list in `commands.rt` and `Commands.antt`; a report stands likewise in
//! `src/reports/`. The state of any machine is printed that is a `View` and tells its next byte that isn't 0.
//!
//! **Main types:** [`Status`], whose number is the exit status; [`Reason`], why a description is refused, with the rules of
//! vg_rule; [`Needs`], what a command needs of a description beyond what each has.
//!
//! **Limits.** Of the descriptions that keep the rules those of the form of vg_form are built, and images are run without
//! data and symbols; others are refused as not built. A description has at most 1 MiB, an image 8 MiB.
//!
//! ```text
//! let status = vadlgen(alloc, words, &mut files, &mut out);   // words: run, two.vadl, two.image, 10
//! ```
#![tactic(auto)]

mod answer;
mod commands;
mod describing;
mod description;
mod description_fault;
mod driver;
mod imaging;
mod laws;
mod loading;
mod needs;
mod next;
mod number;
mod position;
mod processor;
mod program;
mod reason;
mod refusal;
mod reports;
mod status;
mod task;

pub use laws::{ascii_names, one_answer, one_description, one_reason};
pub use needs::Needs;
pub use program::vadlgen;
pub use reason::Reason;
pub use status::Status;
