//! Headings, each up to its `{`.

ghost use Rattle.std.specs.Prelude.{◌≡◌, IfOk};
ghost use Rattle.vg_ast.specs.Placed.{placed};
ghost use Rattle.vg_parse_expr.specs.Lexeme.{Reads};
ghost use Rattle.vg_parse_item.specs.Reading.{heading_at, isa_heading_at, abi_heading_at, micro_heading_at};

use crate::found::Found;
use std::alloc::Global;
use vg_ast::Name;
use vg_parse_expr::{name_at, sign_at, word_at};
use vg_tok::{Sign, Token, Word};

/// The heading of a part: the place of its first word, and the name of the architecture.
#[derive(Drop)]
pub struct Heading {
    pub at: usize,
    pub name: Name,
}

/// Behind the words of a heading.
#[tactic(auto, unfolding(crate::specs::Reading::heading_at))]
fn heading_at(alloc: Global, at: usize, tokens: &[Token]) -> Found<'_, Heading>
    ensures { IfOk result (λ found. Reads (λ x. (x.0, placed x.1.now)) found (heading_at at (placed tokens.now))) }
{
    let Some((name, rest)) = name_at(alloc, tokens)? else {
        return Ok(None);
    };
    let Some((_, rest)) = sign_at(Sign::Equal, rest) else {
        return Ok(None);
    };
    let Some((_, rest)) = sign_at(Sign::OpenBrace, rest) else {
        return Ok(None);
    };
    Ok(Some((Heading { at, name }, rest)))
}

/// The heading of an instruction set part.
#[tactic(auto, unfolding(crate::specs::Reading::isa_heading_at))]
pub(crate) fn isa_heading_at(alloc: Global, tokens: &[Token]) -> Found<'_, Heading>
    ensures { IfOk result (λ found. Reads (λ x. (x.0, placed x.1.now)) found (isa_heading_at (placed tokens.now))) }
{
    let Some((at, rest)) = word_at(Word::Instruction, tokens) else {
        return Ok(None);
    };
    let Some((_, rest)) = word_at(Word::Set, rest) else {
        return Ok(None);
    };
    let Some((_, rest)) = word_at(Word::Architecture, rest) else {
        return Ok(None);
    };
    heading_at(alloc, at, rest)
}

/// The heading of an application binary interface.
#[tactic(auto, unfolding(crate::specs::Reading::abi_heading_at))]
pub(crate) fn abi_heading_at(alloc: Global, tokens: &[Token]) -> Found<'_, Heading>
    ensures { IfOk result (λ found. Reads (λ x. (x.0, placed x.1.now)) found (abi_heading_at (placed tokens.now))) }
{
    let Some((at, rest)) = word_at(Word::Application, tokens) else {
        return Ok(None);
    };
    let Some((_, rest)) = word_at(Word::Binary, rest) else {
        return Ok(None);
    };
    let Some((_, rest)) = word_at(Word::Interface, rest) else {
        return Ok(None);
    };
    let Some((_, rest)) = word_at(Word::For, rest) else {
        return Ok(None);
    };
    heading_at(alloc, at, rest)
}

/// The heading of a micro architecture.
#[tactic(auto, unfolding(crate::specs::Reading::micro_heading_at))]
pub(crate) fn micro_heading_at(alloc: Global, tokens: &[Token]) -> Found<'_, Heading>
    ensures { IfOk result (λ found. Reads (λ x. (x.0, placed x.1.now)) found (micro_heading_at (placed tokens.now))) }
{
    let Some((at, rest)) = word_at(Word::Micro, tokens) else {
        return Ok(None);
    };
    let Some((_, rest)) = word_at(Word::Architecture, rest) else {
        return Ok(None);
    };
    let Some((_, rest)) = word_at(Word::For, rest) else {
        return Ok(None);
    };
    heading_at(alloc, at, rest)
}
