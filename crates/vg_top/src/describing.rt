//! How the text of a description is refused.
ghost use Rattle.std.specs.Prelude.{◌≡◌, ◌<◌, ◌^◌, [], IfOk, length};
ghost use Rattle.vg_top.specs.Faulting.{IsFaultFor};
ghost use Rattle.vg_top.specs.Reading.{RefusesDescription};
ghost use Rattle.vg_top.specs.Tasks.{answer_with};

use crate::answer::Answer;
use crate::description_fault::DescriptionFault;
use crate::needs::Needs;
use crate::refusal::reason_line;
use crate::status::Status;
use std::alloc::{AllocError, Global};

/// A description has at most so many bytes.
pub(crate) const DESCRIPTION_LIMIT: usize = 1 << 20;

/// The answer to a text that is no description that is built, or lacks what the command needs.
pub(crate) fn description_refused(
    alloc: Global,
    text: &[u8],
    fault: DescriptionFault,
) -> Result<Answer, AllocError>
    requires within { length text.now < 2 ^ 32 }
    ensures right { (needs : Needs) → IsFaultFor text.now needs fault → IfOk result (λ answer. RefusesDescription text.now needs (answer_with [] answer)) }
    ensures refused { IfOk result (λ answer. answer.status ≡ Status.Refused) }
{
    match fault {
        DescriptionFault::Refused(reason) => {
            Ok(Answer::refused(reason_line(alloc, text, &reason)?))
        }
        DescriptionFault::OutOfMemory => Err(AllocError),
    }
}
