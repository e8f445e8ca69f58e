use std::alloc::{AllocError, AllocFailed};
use thiserror::Error;

/// Why a load gave no bytes.
#[derive(Clone, Copy, Debug, PartialEq, Eq, Error)]
pub enum LoadFault {
    /// The file isn't there or couldn't be read.
    #[error("the file could not be read")]
    Failed,
    /// There was no memory for its bytes or its name.
    #[error("out of memory")]
    OutOfMemory,
}

impl From<AllocError> for LoadFault {
    ghost use Rattle.std.specs.Prelude.{◌≡◌};
    ghost use Rattle.vg_io.specs.declared.load_fault.LoadFault.TheVariants.{OutOfMemory};

    ghost from_gives = { λ _ fault. fault ≡ OutOfMemory };

    fn from(_error: AllocError) -> LoadFault {
        LoadFault::OutOfMemory
    }
}

impl<T: Drop> From<AllocFailed<T>> for LoadFault {
    ghost use Rattle.std.specs.Prelude.{◌≡◌};
    ghost use Rattle.vg_io.specs.declared.load_fault.LoadFault.TheVariants.{OutOfMemory};

    ghost from_gives = { λ _ fault. fault ≡ OutOfMemory };

    fn from(_error: AllocFailed<T>) -> LoadFault {
        LoadFault::OutOfMemory
    }
}
