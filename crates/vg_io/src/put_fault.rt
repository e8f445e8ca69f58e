use std::alloc::AllocError;
use thiserror::Error;

/// Why a put took nothing.
#[derive(Clone, Copy, Debug, PartialEq, Eq, Error)]
pub enum PutFault {
    /// The sink refused the piece.
    #[error("the output could not be written")]
    Failed,
    /// There was no memory to keep the piece.
    #[error("out of memory")]
    OutOfMemory,
}

impl From<AllocError> for PutFault {
    ghost use Rattle.std.specs.Prelude.{◌≡◌};
    ghost use Rattle.vg_io.specs.declared.put_fault.PutFault.TheVariants.{OutOfMemory};

    ghost from_gives = { λ _ fault. fault ≡ OutOfMemory };

    fn from(_error: AllocError) -> PutFault {
        PutFault::OutOfMemory
    }
}
