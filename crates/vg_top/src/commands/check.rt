//! `check D`: the name of the architecture, and how many instructions it has.
ghost use Rattle.std.specs.Prelude.{◌≡◌, ◌≤◌, IfOk, length, map, option_map};
ghost use Rattle.vg_top.specs.Commands.Check as command;
ghost use Rattle.vg_top.specs.Reports.Check.{check_report};
ghost use Rattle.vg_top.specs.Tasks.{answer_with};
ghost use Rattle.vg_top.specs.Words.{word_bytes};

use crate::answer::Answer;
use crate::describing::{DESCRIPTION_LIMIT, description_refused};
use crate::description::description_for;
use crate::needs::Needs;
use crate::next::Next;
use crate::reports::check::push_check_report;
use crate::status::Status;
use crate::task::Task;
use std::alloc::{AllocError, Global};
use vg_isa::Isa;

/// Asks for the description.
#[derive(Clone, Copy, Drop)]
pub(crate) struct Check<'a> {
    description: &'a str,
}

impl<'a> Check<'a> {
    /// The command of these words, where they are in its form.
    #[tactic(auto, unfolding(crate::specs::Commands::Check::form))]
    pub(crate) fn of(words: &'a [String]) -> Option<Check<'a>>
        ensures { option_map command.words_of result ≡ command.form (map word_bytes words.now) }
    {
        let [word, description] = words else {
            return None;
        };
        if word.as_str() != "check" {
            return None;
        }
        Some(Check {
            description: description.as_str(),
        })
    }
}

/// The report of a check.
fn reported(alloc: Global, isa: &Isa) -> Result<Answer, AllocError>
    ensures status { IfOk result (λ answer. answer.status ≡ Status.Done) }
    ensures text { IfOk result (λ answer. answer.text.items ≡ check_report isa.now) }
{
    let mut text = Vec::new(alloc);
    push_check_report(&mut text, isa)?;
    Ok(Answer {
        status: Status::Done,
        text,
    })
}

impl Task for Check<'_> {
    ghost use Rattle.std.specs.Prelude.{[]};
    ghost use Rattle.vg_top.specs.Commands.Check.{CheckAnswers};
    ghost use Rattle.vg_top.specs.Reading.{description_limit};

    ghost name = { λ check. check.description.now };

    ghost limit = { λ check. description_limit };

    ghost more = { λ check. [] };

    ghost behind = { λ check held. CheckAnswers };

    fn file_name(&self) -> &str {
        self.description
    }

    fn file_limit(&self) -> usize {
        DESCRIPTION_LIMIT
    }

    fn read(self, alloc: Global, text: &[u8]) -> Result<Next<Self>, AllocError> {
        match description_for(alloc, text, Needs::nothing_more()) {
            Ok(isa) => Ok(Next::Answer(reported(alloc, &isa)?)),
            Err(fault) => Ok(Next::Answer(description_refused(alloc, text, fault)?)),
        }
    }
}
