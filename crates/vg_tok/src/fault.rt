ghost use Rattle.std.specs.Prelude.{◌≡◌};

use std::alloc::AllocError;
use thiserror::Error;

/// Why a text has no tokens. Each place is the offset of a byte, from 0.
#[derive(Clone, Copy, Debug, PartialEq, Eq, Error)]
pub enum TokFault {
    /// A byte that begins no character of UTF-8 in its place.
    #[error("byte {at}: not UTF-8")]
    NotUtf8 { at: usize },
    /// A character that is no part of a token, or an open comment.
    #[error("byte {at}: unexpected character")]
    BadChar { at: usize },
    /// A number of 2 to the power of 128 or more.
    #[error("byte {at}: number too large")]
    Wide { at: usize },
    /// Memory ran out.
    #[error("out of memory")]
    OutOfMemory,
}

impl From<AllocError> for TokFault {
    ghost use Rattle.vg_tok.specs.declared.fault.TokFault.TheVariants.{OutOfMemory};

    ghost from_gives = { λ _ e. e ≡ OutOfMemory };

    fn from(_error: AllocError) -> TokFault {
        TokFault::OutOfMemory
    }
}
