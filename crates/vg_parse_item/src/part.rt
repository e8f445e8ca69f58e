//! The parts of a line of assembly.

ghost use Rattle.std.specs.Prelude.{◌≡◌, IfOk};
ghost use Rattle.vg_ast.specs.Placed.{placed};
ghost use Rattle.vg_parse_expr.specs.Lexeme.{Reads};
ghost use Rattle.vg_parse_item.specs.ReadingItem.{register_part_at, target_at, number_part_at, word_part_by, part_at};

use crate::found::Found;
use crate::row::Element;
use sqlite_items::Items;
use std::alloc::Global;
use vg_ast::{NumberFormat, Part};
use vg_parse_expr::{expression, name_at, sign_at};
use vg_tok::{Kind, Sign, Token, Word};

/// Behind the word `register`.
#[tactic(auto, unfolding(crate::specs::ReadingItem::register_part_at))]
fn register_part_at(alloc: Global, at: usize, tokens: &[Token]) -> Found<'_, Part>
    ensures { IfOk result (λ found. Reads (λ x. (x.0, placed x.1.now)) found (register_part_at at (placed tokens.now))) }
{
    let Some((_, rest)) = sign_at(Sign::OpenParenthesis, tokens) else {
        return Ok(None);
    };
    let Some((file, rest)) = name_at(alloc, rest)? else {
        return Ok(None);
    };
    let Some((_, rest)) = sign_at(Sign::OpenParenthesis, rest) else {
        return Ok(None);
    };
    let Some((field, rest)) = name_at(alloc, rest)? else {
        return Ok(None);
    };
    let Some((_, rest)) = sign_at(Sign::CloseParenthesis, rest) else {
        return Ok(None);
    };
    let Some((_, rest)) = sign_at(Sign::CloseParenthesis, rest) else {
        return Ok(None);
    };
    Ok(Some((Part::Register { at, file, field }, rest)))
}

/// Behind the word `target`.
#[tactic(auto, unfolding(crate::specs::ReadingItem::target_at))]
fn target_at(alloc: Global, at: usize, tokens: &[Token]) -> Found<'_, Part>
    ensures { IfOk result (λ found. Reads (λ x. (x.0, placed x.1.now)) found (target_at at (placed tokens.now))) }
{
    let Some((_, rest)) = sign_at(Sign::OpenParenthesis, tokens) else {
        return Ok(None);
    };
    let Some((field, rest)) = name_at(alloc, rest)? else {
        return Ok(None);
    };
    let Some((_, rest)) = sign_at(Sign::Comma, rest) else {
        return Ok(None);
    };
    let Some((shift, rest)) = expression(alloc, 0, rest)? else {
        return Ok(None);
    };
    let Some((_, rest)) = sign_at(Sign::CloseParenthesis, rest) else {
        return Ok(None);
    };
    let shift = shift.tree;
    Ok(Some((Part::Target { at, field, shift }, rest)))
}

/// Behind the word of a number format.
#[tactic(auto, unfolding(crate::specs::ReadingItem::number_part_at))]
fn number_part_at(
    alloc: Global,
    format: NumberFormat,
    at: usize,
    tokens: &[Token],
) -> Found<'_, Part>
    ensures { IfOk result (λ found. Reads (λ x. (x.0, placed x.1.now)) found (number_part_at format at (placed tokens.now))) }
{
    let Some((_, rest)) = sign_at(Sign::OpenParenthesis, tokens) else {
        return Ok(None);
    };
    let Some((field, rest)) = name_at(alloc, rest)? else {
        return Ok(None);
    };
    let Some((_, rest)) = sign_at(Sign::CloseParenthesis, rest) else {
        return Ok(None);
    };
    Ok(Some((Part::Number { format, at, field }, rest)))
}

/// Behind a reserved word.
fn word_part_by(alloc: Global, word: Word, at: usize, tokens: &[Token]) -> Found<'_, Part>
    ensures { IfOk result (λ found. Reads (λ x. (x.0, placed x.1.now)) found (word_part_by word at (placed tokens.now))) }
{
    match word {
        Word::Mnemonic => Ok(Some((Part::Mnemonic { at }, tokens))),
        Word::Register => register_part_at(alloc, at, tokens),
        Word::Decimal => number_part_at(alloc, NumberFormat::Decimal, at, tokens),
        Word::Signed => number_part_at(alloc, NumberFormat::Signed, at, tokens),
        Word::Hex => number_part_at(alloc, NumberFormat::Hex, at, tokens),
        Word::Target => target_at(alloc, at, tokens),
        _ => Ok(None),
    }
}

impl Element for Part {
    ghost reader = { part_at };

    #[tactic(auto, unfolding(crate::specs::ReadingItem::part_at))]
    fn read(alloc: Global, tokens: &[Token]) -> Found<'_, Part> {
        let Some((first, rest)) = tokens.split_first() else {
            return Ok(None);
        };
        let at = first.start;
        match &first.kind {
            Kind::Str(text) => {
                let text = Items::from_slice(alloc, text.as_slice())?;
                Ok(Some((Part::Text { at, text }, rest)))
            }
            Kind::Word(word) => word_part_by(alloc, *word, at, rest),
            _ => Ok(None),
        }
    }
}
