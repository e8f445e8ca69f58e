ghost use Rattle.std.specs.Prelude.{◌≡◌, ℕ, ◌+◌, ◌-◌, ◌^◌, ◌<◌, length, drop};
ghost use Rattle.vg_ast.specs.Piece.{depths_behind, is_leading, closes_part, begins_piece};
ghost use Rattle.vg_parse.specs.Cutting.{depths_of, IsFrontPiece, FitsBehind};

use vg_tok::{Kind, Sign, Token, Word};

/// How many braces and parentheses are open.
#[derive(Clone, Copy)]
pub struct Depths {
    pub braces: usize,
    pub parentheses: usize,
}

/// What is open behind a token.
fn depths_behind(kind: &Kind, depths: Depths) -> Depths
    requires braces { depths.braces + 1 < 2 ^ 64 }
    requires parentheses { depths.parentheses + 1 < 2 ^ 64 }
    ensures { depths_of result ≡ depths_behind kind.now (depths_of depths) }
{
    let Depths {
        braces,
        parentheses,
    } = depths;
    match kind {
        Kind::Sign(Sign::OpenBrace) => Depths {
            braces: braces + 1,
            parentheses,
        },
        Kind::Sign(Sign::CloseBrace) => Depths {
            braces: braces.saturating_sub(1),
            parentheses,
        },
        Kind::Sign(Sign::OpenParenthesis) => Depths {
            braces,
            parentheses: parentheses + 1,
        },
        Kind::Sign(Sign::CloseParenthesis) => Depths {
            braces,
            parentheses: parentheses.saturating_sub(1),
        },
        _ => depths,
    }
}

/// Whether an item, a role or a stage line begins with the word.
fn is_leading(word: Word) -> bool
    ensures { result ≡ is_leading word }
{
    match word {
        Word::Constant | Word::Using | Word::Function | Word::Program | Word::Memory => true,
        Word::Register | Word::Format | Word::Instruction | Word::Encoding | Word::Assembly => true,
        Word::Stack | Word::Return | Word::Arguments | Word::Temporaries | Word::Saved => true,
        Word::Code | Word::Data | Word::Stage | Word::Forward => true,
        _ => false,
    }
}

/// Whether the token closes a part.
fn closes_part(depths: Depths, kind: &Kind) -> bool
    ensures { result ≡ closes_part (depths_of depths) kind.now }
{
    depths.braces == 1 && matches!(kind, Kind::Sign(Sign::CloseBrace))
}

/// Whether a piece begins at the token, whatever stands before it.
fn begins_piece(depths: Depths, kind: &Kind) -> bool
    ensures { result ≡ begins_piece (depths_of depths) kind.now }
{
    match kind {
        Kind::Sign(Sign::CloseBrace) => depths.braces == 1,
        Kind::Word(word) => depths.braces == 1 && depths.parentheses == 0 && is_leading(*word),
        _ => false,
    }
}

/// The number of tokens of the piece at the front, and what is open behind it.
pub fn front_piece(tokens: &[Token], depths: Depths) -> (usize, Depths)
    requires some { 0 < length tokens.now }
    requires fits { FitsBehind depths tokens.now (2 ^ 64 - 1) }
    ensures piece { IsFrontPiece tokens.now depths result.0 result.1 }
    ensures fits { (bound : ℕ) → FitsBehind depths tokens.now bound → FitsBehind result.1 (drop result.0 tokens.now) bound }
{
    let first = &tokens[0].kind;
    let mut fresh = closes_part(depths, first);
    let mut depths = depths_behind(first, depths);
    for len in 1..tokens.len() {
        let kind = &tokens[len].kind;
        if fresh || begins_piece(depths, kind) {
            return (len, depths);
        }
        fresh = closes_part(depths, kind);
        depths = depths_behind(kind, depths);
    }
    (tokens.len(), depths)
}
