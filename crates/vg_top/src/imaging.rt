//! How the text of an image is refused.
ghost use Rattle.std.specs.Prelude.{[], ℕ, List, IfOk};
ghost use Rattle.vg_isa.specs.declared.isa.Parts.{Parts};
ghost use Rattle.vg_image.specs.Reading.{Refuses};
ghost use Rattle.vg_top.specs.Reading.{RefusesImage};
ghost use Rattle.vg_top.specs.Tasks.{IsOfFiles, answer_with};

use crate::answer::Answer;
use crate::refusal::image_line;
use std::alloc::{AllocError, Global};
use vg_image::ImageFault;

/// An image has at most so many bytes.
pub(crate) const IMAGE_LIMIT: usize = 8 << 20;

/// The answer to a text that is no image.
pub(crate) fn image_refused(alloc: Global, fault: ImageFault) -> Result<Answer, AllocError>
    ensures right { (d : Parts) (text : List ℕ) → Refuses d text fault → IfOk result (λ answer. RefusesImage d text (answer_with [] answer)) }
    ensures files { IfOk result (λ answer. IsOfFiles answer.status) }
{
    match fault {
        ImageFault::Line { line } => Ok(Answer::refused(image_line(alloc, line as u64)?)),
        ImageFault::OutOfMemory => Err(AllocError),
    }
}
