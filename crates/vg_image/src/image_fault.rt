use std::alloc::AllocError;
use thiserror::Error;

/// Why a text gave no image. Lines are counted from 1, and a rest without a line feed counts as a line.
#[derive(Clone, Copy, Debug, PartialEq, Eq, Error)]
pub enum ImageFault {
    /// The text is no spelling of an image for the description. The line is the first with which no
    /// spelling goes on: one more than the number of lines where each line is right and more must follow.
    #[error("line {line} is not of an image for this description")]
    Line { line: usize },
    /// There was no memory for the image.
    #[error("out of memory")]
    OutOfMemory,
}

impl From<AllocError> for ImageFault {
    ghost use Rattle.std.specs.Prelude.{◌≡◌};
    ghost use Rattle.vg_image.specs.declared.image_fault.ImageFault.TheVariants.{OutOfMemory};

    ghost from_gives = { λ _ fault. fault ≡ OutOfMemory };

    fn from(_error: AllocError) -> ImageFault {
        ImageFault::OutOfMemory
    }
}
