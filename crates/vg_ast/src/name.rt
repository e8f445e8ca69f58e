use vg_tok::Chars;

/// A name as it is written, at its definition or where it is used.
#[derive(Debug, Drop)]
pub struct Name {
    pub text: Chars,
    pub at: usize,
}
