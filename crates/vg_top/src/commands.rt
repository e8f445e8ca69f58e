//! The list of commands.
ghost use Rattle.std.specs.Prelude.{◌≡◌, ◌≤◌, IfOk, false, map};
ghost use Rattle.vg_top.specs.Commands.{asked_by, is_form, names_in, answers_in};
ghost use Rattle.vg_top.specs.Driving.{AnswersLoads, IsFinal, status_of};
ghost use Rattle.vg_top.specs.Refusal.{usage_line as usage};
ghost use Rattle.vg_top.specs.Theorem.{AsksForNames, StopsLoading};
ghost use Rattle.vg_top.specs.Words.{word_bytes};

pub(crate) mod check;
pub(crate) mod run;

use crate::answer::Answer;
use crate::driver::drive;
use crate::refusal::usage_line;
use crate::status::Status;
use check::Check;
use run::{Run, RunWords};
use std::alloc::{AllocError, Global};
use vg_io::Files;

/// The answer to words in no form.
fn usage(alloc: Global) -> Result<Answer, AllocError>
    ensures status { IfOk result (λ answer. answer.status ≡ Status.Usage) }
    ensures text { IfOk result (λ answer. answer.text.items ≡ usage) }
{
    Ok(Answer {
        status: Status::Usage,
        text: usage_line(alloc)?,
    })
}

/// The answer to the words of a command line.
pub(crate) fn answer_to<F: Files>(
    alloc: Global,
    words: &[String],
    files: &mut F,
) -> Result<Answer, AllocError>
    ensures told { AnswersLoads (F.held files.old) (F.asked files.old) (F.asked files.new) result (answers_in (asked_by (map word_bytes words.now))) }
    ensures asked { AsksForNames (names_in (asked_by (map word_bytes words.now))) (F.asked files.old) (F.asked files.new) (status_of result) }
    ensures whole { IfOk result (λ answer. IsFinal answer.status answer.text.items) }
    ensures usage { IfOk result (λ answer. answer.status ≡ Status.Usage → is_form (asked_by (map word_bytes words.now)) ≡ false) }
    ensures no_form { is_form (asked_by (map word_bytes words.now)) ≡ false → IfOk result (λ answer. (answer.status ≡ Status.Usage) × (answer.text.items ≡ usage)) }
    ensures at_once { StopsLoading (status_of result) (F.faults files.old) (F.faults files.new) }
    ensures kept_faults { F.faults files.old ≤ F.faults files.new }
    ensures same { F.held files.new ≡ F.held files.old }
{
    if let Some(check) = Check::of(words) {
        return drive(alloc, files, check);
    }
    if let Some(words) = RunWords::of(words) {
        return drive(alloc, files, Run::Begun(words));
    }
    usage(alloc)
}
