use std::alloc::AllocError;
use vg_tok::Token;

/// What the tokens begin with and the tokens behind it, or None where they don't begin so.
pub(crate) type Found<'a, T> = Result<Option<(T, &'a [Token])>, AllocError>;
