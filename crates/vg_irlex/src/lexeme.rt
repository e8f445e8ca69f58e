ghost use Rattle.std.specs.Prelude.{◌≡◌, take, drop, ◌-◌};
ghost use Rattle.vg_irlex.specs.Piece.{piece};

/// A lexeme: the offset of its first byte, that of the byte behind it, and whether no lexeme stands before it on its line.
#[derive(Clone, Copy, Debug, PartialEq, Eq)]
pub struct Lexeme {
    pub start: usize,
    pub end: usize,
    pub fresh: bool,
}

/// The bytes of a lexeme of this text.
pub fn piece(text: &[u8], lexeme: Lexeme) -> &[u8]
    ensures { result.now ≡ piece text.now lexeme }
{
    let rest = &text[lexeme.start.min(text.len())..];
    let len = lexeme.end.saturating_sub(lexeme.start);
    &rest[..len.min(rest.len())]
}
