//! The items of a micro architecture.

ghost use Rattle.std.specs.Prelude.{◌≡◌, IfOk};
ghost use Rattle.vg_ast.specs.Placed.{placed};
ghost use Rattle.vg_parse_expr.specs.Lexeme.{Reads};
ghost use Rattle.vg_parse_item.specs.ReadingRole.{read_act_at, write_act_at, word_act_by, act_at, acts_at, stage_at, forward_at, word_micro_item_by, micro_item_at};

use crate::found::Found;
use crate::row::{Element, row_at};
use sqlite_items::Items;
use std::alloc::Global;
use vg_ast::{Act, MicroItem};
use vg_parse_expr::{begins_with, name_at, sign_at};
use vg_tok::{Kind, Sign, Token, Word};

/// Behind the word `read`.
#[tactic(auto, unfolding(crate::specs::ReadingRole::read_act_at))]
fn read_act_at(alloc: Global, at: usize, tokens: &[Token]) -> Found<'_, Act>
    ensures { IfOk result (λ found. Reads (λ x. (x.0, placed x.1.now)) found (read_act_at at (placed tokens.now))) }
{
    let Some((resource, rest)) = name_at(alloc, tokens)? else {
        return Ok(None);
    };
    Ok(Some((Act::Read { at, resource }, rest)))
}

/// Behind the word `write`.
#[tactic(auto, unfolding(crate::specs::ReadingRole::write_act_at))]
fn write_act_at(alloc: Global, at: usize, tokens: &[Token]) -> Found<'_, Act>
    ensures { IfOk result (λ found. Reads (λ x. (x.0, placed x.1.now)) found (write_act_at at (placed tokens.now))) }
{
    let Some((resource, rest)) = name_at(alloc, tokens)? else {
        return Ok(None);
    };
    Ok(Some((Act::Write { at, resource }, rest)))
}

/// What a stage does, behind its reserved word.
fn word_act_by(alloc: Global, word: Word, at: usize, tokens: &[Token]) -> Found<'_, Act>
    ensures { IfOk result (λ found. Reads (λ x. (x.0, placed x.1.now)) found (word_act_by word at (placed tokens.now))) }
{
    match word {
        Word::Read => read_act_at(alloc, at, tokens),
        Word::Write => write_act_at(alloc, at, tokens),
        Word::Compute => Ok(Some((Act::Compute { at }, tokens))),
        Word::Resolve => Ok(Some((Act::Resolve { at }, tokens))),
        _ => Ok(None),
    }
}

impl Element for Act {
    ghost reader = { act_at };

    #[tactic(auto, unfolding(crate::specs::ReadingRole::act_at))]
    fn read(alloc: Global, tokens: &[Token]) -> Found<'_, Act> {
        let Some((first, rest)) = tokens.split_first() else {
            return Ok(None);
        };
        match &first.kind {
            Kind::Word(word) => word_act_by(alloc, *word, first.start, rest),
            _ => Ok(None),
        }
    }
}

/// What a stage does, behind its name.
#[tactic(auto, unfolding(crate::specs::ReadingRole::acts_at))]
fn acts_at(alloc: Global, tokens: &[Token]) -> Found<'_, Items<Act>>
    ensures { IfOk result (λ found. Reads (λ x. (x.0, placed x.1.now)) found (acts_at (placed tokens.now))) }
{
    if begins_with(Sign::Colon, tokens) {
        let Some((_, rest)) = sign_at(Sign::Colon, tokens) else {
            return Ok(None);
        };
        return row_at(alloc, rest);
    }
    Ok(Some((Items::new(alloc), tokens)))
}

/// Behind the word `stage`.
#[tactic(auto, unfolding(crate::specs::ReadingRole::stage_at))]
fn stage_at(alloc: Global, at: usize, tokens: &[Token]) -> Found<'_, MicroItem>
    ensures { IfOk result (λ found. Reads (λ x. (x.0, placed x.1.now)) found (stage_at at (placed tokens.now))) }
{
    let Some((name, rest)) = name_at(alloc, tokens)? else {
        return Ok(None);
    };
    let Some((acts, rest)) = acts_at(alloc, rest)? else {
        return Ok(None);
    };
    Ok(Some((MicroItem::Stage { at, name, acts }, rest)))
}

/// Behind the word `forward`.
#[tactic(auto, unfolding(crate::specs::ReadingRole::forward_at))]
fn forward_at(alloc: Global, at: usize, tokens: &[Token]) -> Found<'_, MicroItem>
    ensures { IfOk result (λ found. Reads (λ x. (x.0, placed x.1.now)) found (forward_at at (placed tokens.now))) }
{
    let Some((resource, rest)) = name_at(alloc, tokens)? else {
        return Ok(None);
    };
    Ok(Some((MicroItem::Forward { at, resource }, rest)))
}

/// Behind a reserved word.
fn word_micro_item_by(
    alloc: Global,
    word: Word,
    at: usize,
    tokens: &[Token],
) -> Found<'_, MicroItem>
    ensures { IfOk result (λ found. Reads (λ x. (x.0, placed x.1.now)) found (word_micro_item_by word at (placed tokens.now))) }
{
    match word {
        Word::Stage => stage_at(alloc, at, tokens),
        Word::Forward => forward_at(alloc, at, tokens),
        _ => Ok(None),
    }
}

/// An item of a micro architecture that the tokens begin with, and the tokens behind it.
#[tactic(auto, unfolding(crate::specs::ReadingRole::micro_item_at))]
pub(crate) fn micro_item_at(alloc: Global, tokens: &[Token]) -> Found<'_, MicroItem>
    ensures { IfOk result (λ found. Reads (λ x. (x.0, placed x.1.now)) found (micro_item_at (placed tokens.now))) }
{
    let Some((first, rest)) = tokens.split_first() else {
        return Ok(None);
    };
    match &first.kind {
        Kind::Word(word) => word_micro_item_by(alloc, *word, first.start, rest),
        _ => Ok(None),
    }
}
