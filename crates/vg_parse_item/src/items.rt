//! The items of an instruction set part.

ghost use Rattle.std.specs.Prelude.{◌≡◌, IfOk};
ghost use Rattle.vg_ast.specs.Placed.{placed};
ghost use Rattle.vg_parse_expr.specs.Lexeme.{Reads};
ghost use Rattle.vg_parse_item.specs.ReadingBehind.{body_behind, result_behind, cell_behind, registers_behind, fields_at, fields_behind};
ghost use Rattle.vg_parse_item.specs.ReadingItem.{constant_at, using_at, function_at, program_counter_at, memory_at, single_register_at, zero_at, register_file_at, register_item_at, format_at, instruction_at, encoding_at, assembly_at, word_item_by, item_at};

use crate::found::Found;
use crate::row::{optional_row_at, row_at};
use crate::statement::statement;
use sqlite_items::{Boxed, Items};
use std::alloc::Global;
use vg_ast::{Expr, Field, Item, Name, Parameter, TypeExpr};
use vg_parse_expr::{begins_with_word, expression, name_at, sign_at, type_expr, word_at};
use vg_tok::{Kind, Sign, Token, Word};

/// Behind the word `constant`.
#[tactic(auto, unfolding(crate::specs::ReadingItem::constant_at))]
fn constant_at(alloc: Global, at: usize, tokens: &[Token]) -> Found<'_, Item>
    ensures { IfOk result (λ found. Reads (λ x. (x.0, placed x.1.now)) found (constant_at at (placed tokens.now))) }
{
    let Some((name, rest)) = name_at(alloc, tokens)? else {
        return Ok(None);
    };
    let Some((_, rest)) = sign_at(Sign::Equal, rest) else {
        return Ok(None);
    };
    let Some((value, rest)) = expression(alloc, 0, rest)? else {
        return Ok(None);
    };
    let item = Item::Constant {
        at,
        name,
        value: value.tree,
    };
    Ok(Some((item, rest)))
}

/// Behind the word `using`.
#[tactic(auto, unfolding(crate::specs::ReadingItem::using_at))]
fn using_at(alloc: Global, at: usize, tokens: &[Token]) -> Found<'_, Item>
    ensures { IfOk result (λ found. Reads (λ x. (x.0, placed x.1.now)) found (using_at at (placed tokens.now))) }
{
    let Some((name, rest)) = name_at(alloc, tokens)? else {
        return Ok(None);
    };
    let Some((_, rest)) = sign_at(Sign::Equal, rest) else {
        return Ok(None);
    };
    let Some((meaning, rest)) = type_expr(alloc, rest)? else {
        return Ok(None);
    };
    let item = Item::Using {
        at,
        name,
        meaning: meaning.tree,
    };
    Ok(Some((item, rest)))
}

/// A function behind its result.
#[tactic(auto, unfolding(crate::specs::ReadingBehind::body_behind))]
fn body_behind(
    alloc: Global,
    at: usize,
    name: Name,
    parameters: Items<Parameter>,
    returned: TypeExpr<Boxed<Expr>>,
    tokens: &[Token],
) -> Found<'_, Item>
    ensures { IfOk result (λ found. Reads (λ x. (x.0, placed x.1.now)) found (body_behind at name parameters returned (placed tokens.now))) }
{
    let Some((_, rest)) = sign_at(Sign::Equal, tokens) else {
        return Ok(None);
    };
    let Some((body, rest)) = expression(alloc, 0, rest)? else {
        return Ok(None);
    };
    let item = Item::Function {
        at,
        name,
        parameters,
        result: returned,
        body: body.tree,
    };
    Ok(Some((item, rest)))
}

/// A function behind its parameters.
#[tactic(auto, unfolding(crate::specs::ReadingBehind::result_behind, crate::specs::ReadingBehind::body_behind))]
fn result_behind(
    alloc: Global,
    at: usize,
    name: Name,
    parameters: Items<Parameter>,
    tokens: &[Token],
) -> Found<'_, Item>
    ensures { IfOk result (λ found. Reads (λ x. (x.0, placed x.1.now)) found (result_behind at name parameters (placed tokens.now))) }
{
    let Some((_, rest)) = sign_at(Sign::Arrow, tokens) else {
        return Ok(None);
    };
    let Some((result, rest)) = type_expr(alloc, rest)? else {
        return Ok(None);
    };
    body_behind(alloc, at, name, parameters, result.tree, rest)
}

/// Behind the word `function`.
#[tactic(auto, unfolding(crate::specs::ReadingItem::function_at, crate::specs::ReadingBehind::result_behind, crate::specs::ReadingBehind::body_behind))]
fn function_at(alloc: Global, at: usize, tokens: &[Token]) -> Found<'_, Item>
    ensures { IfOk result (λ found. Reads (λ x. (x.0, placed x.1.now)) found (function_at at (placed tokens.now))) }
{
    let Some((name, rest)) = name_at(alloc, tokens)? else {
        return Ok(None);
    };
    let Some((_, rest)) = sign_at(Sign::OpenParenthesis, rest) else {
        return Ok(None);
    };
    let Some((parameters, rest)) = optional_row_at(alloc, Sign::CloseParenthesis, rest)? else {
        return Ok(None);
    };
    let Some((_, rest)) = sign_at(Sign::CloseParenthesis, rest) else {
        return Ok(None);
    };
    result_behind(alloc, at, name, parameters, rest)
}

/// Behind the word `program`.
#[tactic(auto, unfolding(crate::specs::ReadingItem::program_counter_at))]
fn program_counter_at(alloc: Global, at: usize, tokens: &[Token]) -> Found<'_, Item>
    ensures { IfOk result (λ found. Reads (λ x. (x.0, placed x.1.now)) found (program_counter_at at (placed tokens.now))) }
{
    let Some((_, rest)) = word_at(Word::Counter, tokens) else {
        return Ok(None);
    };
    let Some((name, rest)) = name_at(alloc, rest)? else {
        return Ok(None);
    };
    let Some((_, rest)) = sign_at(Sign::Colon, rest) else {
        return Ok(None);
    };
    let Some((declared, rest)) = type_expr(alloc, rest)? else {
        return Ok(None);
    };
    let item = Item::ProgramCounter {
        at,
        name,
        declared: declared.tree,
    };
    Ok(Some((item, rest)))
}

/// A memory behind the type of its addresses.
#[tactic(auto, unfolding(crate::specs::ReadingBehind::cell_behind))]
fn cell_behind(
    alloc: Global,
    at: usize,
    name: Name,
    address: TypeExpr<Boxed<Expr>>,
    tokens: &[Token],
) -> Found<'_, Item>
    ensures { IfOk result (λ found. Reads (λ x. (x.0, placed x.1.now)) found (cell_behind at name address (placed tokens.now))) }
{
    let Some((_, rest)) = sign_at(Sign::Arrow, tokens) else {
        return Ok(None);
    };
    let Some((cell, rest)) = type_expr(alloc, rest)? else {
        return Ok(None);
    };
    let item = Item::Memory {
        at,
        name,
        address,
        cell: cell.tree,
    };
    Ok(Some((item, rest)))
}

/// Behind the word `memory`.
#[tactic(auto, unfolding(crate::specs::ReadingItem::memory_at, crate::specs::ReadingBehind::cell_behind))]
fn memory_at(alloc: Global, at: usize, tokens: &[Token]) -> Found<'_, Item>
    ensures { IfOk result (λ found. Reads (λ x. (x.0, placed x.1.now)) found (memory_at at (placed tokens.now))) }
{
    let Some((name, rest)) = name_at(alloc, tokens)? else {
        return Ok(None);
    };
    let Some((_, rest)) = sign_at(Sign::Colon, rest) else {
        return Ok(None);
    };
    let Some((address, rest)) = type_expr(alloc, rest)? else {
        return Ok(None);
    };
    cell_behind(alloc, at, name, address.tree, rest)
}

/// Behind the word `register`, where no `file` stands behind it.
#[tactic(auto, unfolding(crate::specs::ReadingItem::single_register_at))]
fn single_register_at(alloc: Global, at: usize, tokens: &[Token]) -> Found<'_, Item>
    ensures { IfOk result (λ found. Reads (λ x. (x.0, placed x.1.now)) found (single_register_at at (placed tokens.now))) }
{
    let Some((name, rest)) = name_at(alloc, tokens)? else {
        return Ok(None);
    };
    let Some((_, rest)) = sign_at(Sign::Colon, rest) else {
        return Ok(None);
    };
    let Some((declared, rest)) = type_expr(alloc, rest)? else {
        return Ok(None);
    };
    let item = Item::Register {
        at,
        name,
        declared: declared.tree,
    };
    Ok(Some((item, rest)))
}

/// The index of the register that is always 0, where it stands.
#[tactic(auto, unfolding(crate::specs::ReadingItem::zero_at))]
fn zero_at(alloc: Global, tokens: &[Token]) -> Found<'_, Option<Boxed<Expr>>>
    ensures { IfOk result (λ found. Reads (λ x. (x.0, placed x.1.now)) found (zero_at (placed tokens.now))) }
{
    if !begins_with_word(Word::Zero, tokens) {
        return Ok(Some((None, tokens)));
    }
    let Some((_, rest)) = word_at(Word::Zero, tokens) else {
        return Ok(None);
    };
    let Some((index, rest)) = expression(alloc, 0, rest)? else {
        return Ok(None);
    };
    Ok(Some((Some(index.tree), rest)))
}

/// A register file behind the type of its indices.
#[tactic(auto, unfolding(crate::specs::ReadingBehind::registers_behind))]
fn registers_behind(
    alloc: Global,
    at: usize,
    name: Name,
    index: TypeExpr<Boxed<Expr>>,
    tokens: &[Token],
) -> Found<'_, Item>
    ensures { IfOk result (λ found. Reads (λ x. (x.0, placed x.1.now)) found (registers_behind at name index (placed tokens.now))) }
{
    let Some((_, rest)) = sign_at(Sign::Arrow, tokens) else {
        return Ok(None);
    };
    let Some((declared, rest)) = type_expr(alloc, rest)? else {
        return Ok(None);
    };
    let Some((zero, rest)) = zero_at(alloc, rest)? else {
        return Ok(None);
    };
    let item = Item::RegisterFile {
        at,
        name,
        index,
        declared: declared.tree,
        zero,
    };
    Ok(Some((item, rest)))
}

/// Behind the words `register file`.
#[tactic(auto, unfolding(crate::specs::ReadingItem::register_file_at, crate::specs::ReadingBehind::registers_behind))]
fn register_file_at(alloc: Global, at: usize, tokens: &[Token]) -> Found<'_, Item>
    ensures { IfOk result (λ found. Reads (λ x. (x.0, placed x.1.now)) found (register_file_at at (placed tokens.now))) }
{
    let Some((name, rest)) = name_at(alloc, tokens)? else {
        return Ok(None);
    };
    let Some((_, rest)) = sign_at(Sign::Colon, rest) else {
        return Ok(None);
    };
    let Some((index, rest)) = type_expr(alloc, rest)? else {
        return Ok(None);
    };
    registers_behind(alloc, at, name, index.tree, rest)
}

/// Behind the word `register`.
#[tactic(auto, unfolding(crate::specs::ReadingItem::register_item_at))]
fn register_item_at(alloc: Global, at: usize, tokens: &[Token]) -> Found<'_, Item>
    ensures { IfOk result (λ found. Reads (λ x. (x.0, placed x.1.now)) found (register_item_at at (placed tokens.now))) }
{
    if begins_with_word(Word::File, tokens) {
        let Some((_, rest)) = word_at(Word::File, tokens) else {
            return Ok(None);
        };
        return register_file_at(alloc, at, rest);
    }
    single_register_at(alloc, at, tokens)
}

/// The fields of a format, in their braces.
#[tactic(auto, unfolding(crate::specs::ReadingBehind::fields_at))]
fn fields_at(alloc: Global, tokens: &[Token]) -> Found<'_, Items<Field>>
    ensures { IfOk result (λ found. Reads (λ x. (x.0, placed x.1.now)) found (fields_at (placed tokens.now))) }
{
    let Some((_, rest)) = sign_at(Sign::Equal, tokens) else {
        return Ok(None);
    };
    let Some((_, rest)) = sign_at(Sign::OpenBrace, rest) else {
        return Ok(None);
    };
    let Some((fields, rest)) = row_at(alloc, rest)? else {
        return Ok(None);
    };
    let Some((_, rest)) = sign_at(Sign::CloseBrace, rest) else {
        return Ok(None);
    };
    Ok(Some((fields, rest)))
}

/// A format behind its type.
#[tactic(auto, unfolding(crate::specs::ReadingBehind::fields_behind))]
fn fields_behind(
    alloc: Global,
    at: usize,
    name: Name,
    declared: TypeExpr<Boxed<Expr>>,
    tokens: &[Token],
) -> Found<'_, Item>
    ensures { IfOk result (λ found. Reads (λ x. (x.0, placed x.1.now)) found (fields_behind at name declared (placed tokens.now))) }
{
    let Some((fields, rest)) = fields_at(alloc, tokens)? else {
        return Ok(None);
    };
    let item = Item::Format {
        at,
        name,
        declared,
        fields,
    };
    Ok(Some((item, rest)))
}

/// Behind the word `format`.
#[tactic(auto, using(crate::proofs::Formats::format_steps))]
fn format_at(alloc: Global, at: usize, tokens: &[Token]) -> Found<'_, Item>
    ensures { IfOk result (λ found. Reads (λ x. (x.0, placed x.1.now)) found (format_at at (placed tokens.now))) }
{
    let Some((name, rest)) = name_at(alloc, tokens)? else {
        return Ok(None);
    };
    let Some((_, rest)) = sign_at(Sign::Colon, rest) else {
        return Ok(None);
    };
    let Some((declared, rest)) = type_expr(alloc, rest)? else {
        return Ok(None);
    };
    fields_behind(alloc, at, name, declared.tree, rest)
}

/// Behind the word `instruction`.
#[tactic(auto, unfolding(crate::specs::ReadingItem::instruction_at))]
fn instruction_at(alloc: Global, at: usize, tokens: &[Token]) -> Found<'_, Item>
    ensures { IfOk result (λ found. Reads (λ x. (x.0, placed x.1.now)) found (instruction_at at (placed tokens.now))) }
{
    let Some((name, rest)) = name_at(alloc, tokens)? else {
        return Ok(None);
    };
    let Some((_, rest)) = sign_at(Sign::Colon, rest) else {
        return Ok(None);
    };
    let Some((format, rest)) = name_at(alloc, rest)? else {
        return Ok(None);
    };
    let Some((_, rest)) = sign_at(Sign::Equal, rest) else {
        return Ok(None);
    };
    let Some((behaviour, rest)) = statement(alloc, rest)? else {
        return Ok(None);
    };
    let item = Item::Instruction {
        at,
        name,
        format,
        behaviour: behaviour.tree,
    };
    Ok(Some((item, rest)))
}

/// Behind the word `encoding`.
#[tactic(auto, unfolding(crate::specs::ReadingItem::encoding_at))]
fn encoding_at(alloc: Global, at: usize, tokens: &[Token]) -> Found<'_, Item>
    ensures { IfOk result (λ found. Reads (λ x. (x.0, placed x.1.now)) found (encoding_at at (placed tokens.now))) }
{
    let Some((name, rest)) = name_at(alloc, tokens)? else {
        return Ok(None);
    };
    let Some((_, rest)) = sign_at(Sign::Equal, rest) else {
        return Ok(None);
    };
    let Some((_, rest)) = sign_at(Sign::OpenBrace, rest) else {
        return Ok(None);
    };
    let Some((fixes, rest)) = optional_row_at(alloc, Sign::CloseBrace, rest)? else {
        return Ok(None);
    };
    let Some((_, rest)) = sign_at(Sign::CloseBrace, rest) else {
        return Ok(None);
    };
    let item = Item::Encoding { at, name, fixes };
    Ok(Some((item, rest)))
}

/// Behind the word `assembly`.
#[tactic(auto, unfolding(crate::specs::ReadingItem::assembly_at))]
fn assembly_at(alloc: Global, at: usize, tokens: &[Token]) -> Found<'_, Item>
    ensures { IfOk result (λ found. Reads (λ x. (x.0, placed x.1.now)) found (assembly_at at (placed tokens.now))) }
{
    let Some((name, rest)) = name_at(alloc, tokens)? else {
        return Ok(None);
    };
    let Some((_, rest)) = sign_at(Sign::Equal, rest) else {
        return Ok(None);
    };
    let Some((_, rest)) = sign_at(Sign::OpenParenthesis, rest) else {
        return Ok(None);
    };
    let Some((parts, rest)) = row_at(alloc, rest)? else {
        return Ok(None);
    };
    let Some((_, rest)) = sign_at(Sign::CloseParenthesis, rest) else {
        return Ok(None);
    };
    let item = Item::Assembly { at, name, parts };
    Ok(Some((item, rest)))
}

/// Behind a reserved word.
fn word_item_by(alloc: Global, word: Word, at: usize, tokens: &[Token]) -> Found<'_, Item>
    ensures { IfOk result (λ found. Reads (λ x. (x.0, placed x.1.now)) found (word_item_by word at (placed tokens.now))) }
{
    match word {
        Word::Constant => constant_at(alloc, at, tokens),
        Word::Using => using_at(alloc, at, tokens),
        Word::Function => function_at(alloc, at, tokens),
        Word::Program => program_counter_at(alloc, at, tokens),
        Word::Memory => memory_at(alloc, at, tokens),
        Word::Register => register_item_at(alloc, at, tokens),
        Word::Format => format_at(alloc, at, tokens),
        Word::Instruction => instruction_at(alloc, at, tokens),
        Word::Encoding => encoding_at(alloc, at, tokens),
        Word::Assembly => assembly_at(alloc, at, tokens),
        _ => Ok(None),
    }
}

/// An item that the tokens begin with, and the tokens behind it.
#[tactic(auto, unfolding(crate::specs::ReadingItem::item_at))]
pub(crate) fn item_at(alloc: Global, tokens: &[Token]) -> Found<'_, Item>
    ensures { IfOk result (λ found. Reads (λ x. (x.0, placed x.1.now)) found (item_at (placed tokens.now))) }
{
    let Some((first, rest)) = tokens.split_first() else {
        return Ok(None);
    };
    match &first.kind {
        Kind::Word(word) => word_item_by(alloc, *word, first.start, rest),
        _ => Ok(None),
    }
}
