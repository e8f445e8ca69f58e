//! Taking one token from the front of the tokens.

ghost use Rattle.std.specs.Prelude.{◌≡◌, IfOk};
ghost use Rattle.vg_ast.specs.Placed.{placed};
ghost use Rattle.vg_parse_expr.specs.Lexeme.{Reads, is_sign_kind, is_word_kind, begins_with, begins_with_word, sign_at, word_at, name_at};

use sqlite_items::Items;
use std::alloc::{AllocError, Global};
use vg_ast::Name;
use vg_tok::{Kind, Sign, Token, Word};

pub(crate) fn is_sign_kind(sign: Sign, kind: &Kind) -> bool
    ensures { result ≡ is_sign_kind sign kind.now }
{
    match kind {
        Kind::Sign(other) => sign == *other,
        _ => false,
    }
}

fn is_word_kind(word: Word, kind: &Kind) -> bool
    ensures { result ≡ is_word_kind word kind.now }
{
    match kind {
        Kind::Word(other) => word == *other,
        _ => false,
    }
}

/// Whether the first token is this sign.
pub fn begins_with(sign: Sign, tokens: &[Token]) -> bool
    ensures { result ≡ begins_with sign (placed tokens.now) }
{
    match tokens.split_first() {
        Some((first, _)) => is_sign_kind(sign, &first.kind),
        None => false,
    }
}

/// Whether the first token is this reserved word.
pub fn begins_with_word(word: Word, tokens: &[Token]) -> bool
    ensures { result ≡ begins_with_word word (placed tokens.now) }
{
    match tokens.split_first() {
        Some((first, _)) => is_word_kind(word, &first.kind),
        None => false,
    }
}

/// The place of a sign that the tokens begin with, and the tokens behind it.
#[tactic(auto, unfolding(crate::specs::Lexeme::sign_at))]
pub fn sign_at(sign: Sign, tokens: &[Token]) -> Option<(usize, &[Token])>
    ensures { Reads (λ x. (x.0, placed x.1.now)) result (sign_at sign (placed tokens.now)) }
{
    let (first, rest) = tokens.split_first()?;
    if is_sign_kind(sign, &first.kind) {
        Some((first.start, rest))
    } else {
        None
    }
}

/// The place of a reserved word that the tokens begin with, and the tokens behind it.
#[tactic(auto, unfolding(crate::specs::Lexeme::word_at))]
pub fn word_at(word: Word, tokens: &[Token]) -> Option<(usize, &[Token])>
    ensures { Reads (λ x. (x.0, placed x.1.now)) result (word_at word (placed tokens.now)) }
{
    let (first, rest) = tokens.split_first()?;
    if is_word_kind(word, &first.kind) {
        Some((first.start, rest))
    } else {
        None
    }
}

/// A name that the tokens begin with, and the tokens behind it.
#[tactic(auto, unfolding(crate::specs::Lexeme::name_at))]
pub fn name_at(alloc: Global, tokens: &[Token]) -> Result<Option<(Name, &[Token])>, AllocError>
    ensures { IfOk result (λ found. Reads (λ x. (x.0, placed x.1.now)) found (name_at (placed tokens.now))) }
{
    let Some((first, rest)) = tokens.split_first() else {
        return Ok(None);
    };
    match &first.kind {
        Kind::Name(text) => {
            let name = Name {
                text: Items::from_slice(alloc, text.as_slice())?,
                at: first.start,
            };
            Ok(Some((name, rest)))
        }
        _ => Ok(None),
    }
}
