//! The one place that loads files: whatever the command, its files are asked for one after another.
ghost use Rattle.std.specs.Prelude.{◌≡◌, ◌≤◌, ◌∷◌, IfOk, IfSome};
ghost use Rattle.vg_top.specs.Driving.{AnswersLoads, AsksFor, IsReply, Replies, StepsOn, LeavesNames, StopsStep, status_of};
ghost use Rattle.vg_top.specs.Tasks.{TaskAnswers};
ghost use Rattle.vg_top.specs.Theorem.{AsksForNames, StopsLoading};

use crate::answer::Answer;
use crate::loading::{Loaded, load_within};
use crate::next::Next;
use crate::refusal::too_long;
use crate::task::Task;
use std::alloc::{AllocError, Global};
use vg_io::Files;

/// Loads the file that a task asks for, and goes on with its bytes.
fn step<T: Task, F: Files>(alloc: Global, files: &mut F, task: T) -> Result<Next<T>, AllocError>
    ensures told { IfOk result (λ next. IfSome (F.held files.old) (λ held. StepsOn T.name T.limit T.more T.behind task held next)) }
    ensures names { IfOk result (λ next. LeavesNames T.name T.limit T.more T.behind (T.more task) next) }
    ensures replies { IfOk result (λ next. Replies next) }
    ensures asked { AsksFor result (T.name task) (F.asked files.old) (F.asked files.new) }
    ensures at_once { StopsStep result (F.faults files.old) (F.faults files.new) }
    ensures kept_faults { F.faults files.old ≤ F.faults files.new }
    ensures same { F.held files.new ≡ F.held files.old }
{
    match load_within(alloc, files, task.file_name(), task.file_limit())? {
        Loaded::Failed => Ok(Next::Answer(Answer::unread(alloc))),
        Loaded::TooLong => Ok(Next::Answer(Answer::refused(too_long(alloc, task.file_name())?))),
        Loaded::Text(text) => task.read(alloc, text.as_slice()),
    }
}

/// Asks for the files of a command in their order, up to its answer.
pub(crate) fn drive<T: Task, F: Files>(
    alloc: Global,
    files: &mut F,
    task: T,
) -> Result<Answer, AllocError>
    ensures told { AnswersLoads (F.held files.old) (F.asked files.old) (F.asked files.new) result (λ held. TaskAnswers T.name T.limit T.more T.behind task held) }
    ensures asked { AsksForNames (T.name task ∷ T.more task) (F.asked files.old) (F.asked files.new) (status_of result) }
    ensures replies { IfOk result (λ answer. IsReply answer.status answer.text.items) }
    ensures at_once { StopsLoading (status_of result) (F.faults files.old) (F.faults files.new) }
    ensures kept_faults { F.faults files.old ≤ F.faults files.new }
    ensures same { F.held files.new ≡ F.held files.old }
{
    let mut task = task;
    loop {
        match step(alloc, files, task)? {
            Next::Answer(answer) => return Ok(answer),
            Next::Ask(next) => task = next,
        }
    }
}
