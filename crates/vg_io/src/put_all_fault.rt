use thiserror::Error;

/// Why a text wasn't put whole.
#[derive(Clone, Copy, Debug, PartialEq, Eq, Error)]
pub enum PutAllFault {
    /// A put failed or took nothing.
    #[error("the output could not be written")]
    Write,
    /// There was no memory to keep a piece.
    #[error("out of memory")]
    OutOfMemory,
}
