use std::alloc::AllocError;
use thiserror::Error;
use vg_bits::Bits;
use vg_isa::InstrId;

/// Why a description has no decoder.
#[derive(Clone, Copy, Debug, PartialEq, Eq, Error)]
pub enum BuildFault {
    /// A word matches two instructions: the first such pair in the order of the text, and its least such word.
    #[error("a word matches two instructions")]
    Overlap { a: InstrId, b: InstrId, word: Bits },
    /// There was no memory for the decoder.
    #[error("out of memory")]
    OutOfMemory,
}

impl From<AllocError> for BuildFault {
    ghost use Rattle.std.specs.Prelude.{◌≡◌};
    ghost use Rattle.vg_decode.specs.declared.build_fault.BuildFault.TheVariants.{OutOfMemory};

    ghost from_gives = { λ _ fault. fault ≡ OutOfMemory };

    fn from(_error: AllocError) -> BuildFault {
        BuildFault::OutOfMemory
    }
}
