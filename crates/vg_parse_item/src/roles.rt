//! The roles of an application binary interface.

ghost use Rattle.std.specs.Prelude.{◌≡◌, IfOk};
ghost use Rattle.vg_ast.specs.Placed.{placed};
ghost use Rattle.vg_parse_expr.specs.Lexeme.{Reads};
ghost use Rattle.vg_parse_item.specs.ReadingRole.{register_at, assigned_register_at, assigned_registers_at, assigned_expression_at, stack_pointer_at, ends_of_stack_at, stack_at, return_address_at, return_value_at, return_at, arguments_at, temporaries_at, saved_at, code_at, data_at, word_role_by, role_at};

use crate::found::Found;
use crate::row::{Element, row_at};
use sqlite_items::Items;
use std::alloc::Global;
use vg_ast::{Register, Role};
use vg_parse_expr::{Operand, begins_with_word, expression, name_at, sign_at, word_at};
use vg_tok::{Kind, Sign, Token, Word};

impl Element for Register {
    ghost reader = { register_at };

    #[tactic(auto, unfolding(crate::specs::ReadingRole::register_at))]
    fn read(alloc: Global, tokens: &[Token]) -> Found<'_, Register> {
        let Some((file, rest)) = name_at(alloc, tokens)? else {
            return Ok(None);
        };
        let Some((_, rest)) = sign_at(Sign::OpenParenthesis, rest) else {
            return Ok(None);
        };
        let Some((index, rest)) = expression(alloc, 0, rest)? else {
            return Ok(None);
        };
        let Some((_, rest)) = sign_at(Sign::CloseParenthesis, rest) else {
            return Ok(None);
        };
        let index = index.tree;
        Ok(Some((Register { file, index }, rest)))
    }
}

/// `=` and a register.
#[tactic(auto, unfolding(crate::specs::ReadingRole::assigned_register_at))]
fn assigned_register_at(alloc: Global, tokens: &[Token]) -> Found<'_, Register>
    ensures { IfOk result (λ found. Reads (λ x. (x.0, placed x.1.now)) found (assigned_register_at (placed tokens.now))) }
{
    let Some((_, rest)) = sign_at(Sign::Equal, tokens) else {
        return Ok(None);
    };
    Register::read(alloc, rest)
}

/// `=` and registers.
#[tactic(auto, unfolding(crate::specs::ReadingRole::assigned_registers_at))]
fn assigned_registers_at(alloc: Global, tokens: &[Token]) -> Found<'_, Items<Register>>
    ensures { IfOk result (λ found. Reads (λ x. (x.0, placed x.1.now)) found (assigned_registers_at (placed tokens.now))) }
{
    let Some((_, rest)) = sign_at(Sign::Equal, tokens) else {
        return Ok(None);
    };
    row_at(alloc, rest)
}

/// `=` and an expression.
#[tactic(auto, unfolding(crate::specs::ReadingRole::assigned_expression_at))]
fn assigned_expression_at(alloc: Global, tokens: &[Token]) -> Found<'_, Operand>
    ensures { IfOk result (λ found. Reads (λ x. (x.0, placed x.1.now)) found (assigned_expression_at (placed tokens.now))) }
{
    let Some((_, rest)) = sign_at(Sign::Equal, tokens) else {
        return Ok(None);
    };
    expression(alloc, 0, rest)
}

/// Behind the words `stack pointer`.
#[tactic(auto, unfolding(crate::specs::ReadingRole::stack_pointer_at))]
fn stack_pointer_at(alloc: Global, at: usize, tokens: &[Token]) -> Found<'_, Role>
    ensures { IfOk result (λ found. Reads (λ x. (x.0, placed x.1.now)) found (stack_pointer_at at (placed tokens.now))) }
{
    let Some((register, rest)) = assigned_register_at(alloc, tokens)? else {
        return Ok(None);
    };
    Ok(Some((Role::StackPointer { at, register }, rest)))
}

/// The two ends, behind the word `stack`.
#[tactic(auto, unfolding(crate::specs::ReadingRole::ends_of_stack_at))]
fn ends_of_stack_at(alloc: Global, at: usize, tokens: &[Token]) -> Found<'_, Role>
    ensures { IfOk result (λ found. Reads (λ x. (x.0, placed x.1.now)) found (ends_of_stack_at at (placed tokens.now))) }
{
    let Some((low, rest)) = assigned_expression_at(alloc, tokens)? else {
        return Ok(None);
    };
    let Some((_, rest)) = sign_at(Sign::DotDot, rest) else {
        return Ok(None);
    };
    let Some((high, rest)) = expression(alloc, 0, rest)? else {
        return Ok(None);
    };
    let low = low.tree;
    let high = high.tree;
    Ok(Some((Role::Stack { at, low, high }, rest)))
}

/// Behind the word `stack`.
#[tactic(auto, unfolding(crate::specs::ReadingRole::stack_at))]
fn stack_at(alloc: Global, at: usize, tokens: &[Token]) -> Found<'_, Role>
    ensures { IfOk result (λ found. Reads (λ x. (x.0, placed x.1.now)) found (stack_at at (placed tokens.now))) }
{
    if begins_with_word(Word::Pointer, tokens) {
        let Some((_, rest)) = word_at(Word::Pointer, tokens) else {
            return Ok(None);
        };
        return stack_pointer_at(alloc, at, rest);
    }
    ends_of_stack_at(alloc, at, tokens)
}

/// Behind the words `return address`.
#[tactic(auto, unfolding(crate::specs::ReadingRole::return_address_at))]
fn return_address_at(alloc: Global, at: usize, tokens: &[Token]) -> Found<'_, Role>
    ensures { IfOk result (λ found. Reads (λ x. (x.0, placed x.1.now)) found (return_address_at at (placed tokens.now))) }
{
    let Some((register, rest)) = assigned_register_at(alloc, tokens)? else {
        return Ok(None);
    };
    Ok(Some((Role::ReturnAddress { at, register }, rest)))
}

/// Behind the words `return value`.
#[tactic(auto, unfolding(crate::specs::ReadingRole::return_value_at))]
fn return_value_at(alloc: Global, at: usize, tokens: &[Token]) -> Found<'_, Role>
    ensures { IfOk result (λ found. Reads (λ x. (x.0, placed x.1.now)) found (return_value_at at (placed tokens.now))) }
{
    let Some((register, rest)) = assigned_register_at(alloc, tokens)? else {
        return Ok(None);
    };
    Ok(Some((Role::ReturnValue { at, register }, rest)))
}

/// Behind the word `return`.
#[tactic(auto, unfolding(crate::specs::ReadingRole::return_at))]
fn return_at(alloc: Global, at: usize, tokens: &[Token]) -> Found<'_, Role>
    ensures { IfOk result (λ found. Reads (λ x. (x.0, placed x.1.now)) found (return_at at (placed tokens.now))) }
{
    if begins_with_word(Word::Address, tokens) {
        let Some((_, rest)) = word_at(Word::Address, tokens) else {
            return Ok(None);
        };
        return return_address_at(alloc, at, rest);
    }
    let Some((_, rest)) = word_at(Word::Value, tokens) else {
        return Ok(None);
    };
    return_value_at(alloc, at, rest)
}

/// Behind the word `arguments`.
#[tactic(auto, unfolding(crate::specs::ReadingRole::arguments_at))]
fn arguments_at(alloc: Global, at: usize, tokens: &[Token]) -> Found<'_, Role>
    ensures { IfOk result (λ found. Reads (λ x. (x.0, placed x.1.now)) found (arguments_at at (placed tokens.now))) }
{
    let Some((registers, rest)) = assigned_registers_at(alloc, tokens)? else {
        return Ok(None);
    };
    Ok(Some((Role::Arguments { at, registers }, rest)))
}

/// Behind the word `temporaries`.
#[tactic(auto, unfolding(crate::specs::ReadingRole::temporaries_at))]
fn temporaries_at(alloc: Global, at: usize, tokens: &[Token]) -> Found<'_, Role>
    ensures { IfOk result (λ found. Reads (λ x. (x.0, placed x.1.now)) found (temporaries_at at (placed tokens.now))) }
{
    let Some((registers, rest)) = assigned_registers_at(alloc, tokens)? else {
        return Ok(None);
    };
    Ok(Some((Role::Temporaries { at, registers }, rest)))
}

/// Behind the word `saved`.
#[tactic(auto, unfolding(crate::specs::ReadingRole::saved_at))]
fn saved_at(alloc: Global, at: usize, tokens: &[Token]) -> Found<'_, Role>
    ensures { IfOk result (λ found. Reads (λ x. (x.0, placed x.1.now)) found (saved_at at (placed tokens.now))) }
{
    let Some((registers, rest)) = assigned_registers_at(alloc, tokens)? else {
        return Ok(None);
    };
    Ok(Some((Role::Saved { at, registers }, rest)))
}

/// Behind the word `code`.
#[tactic(auto, unfolding(crate::specs::ReadingRole::code_at))]
fn code_at(alloc: Global, at: usize, tokens: &[Token]) -> Found<'_, Role>
    ensures { IfOk result (λ found. Reads (λ x. (x.0, placed x.1.now)) found (code_at at (placed tokens.now))) }
{
    let Some((base, rest)) = assigned_expression_at(alloc, tokens)? else {
        return Ok(None);
    };
    let base = base.tree;
    Ok(Some((Role::Code { at, base }, rest)))
}

/// Behind the word `data`.
#[tactic(auto, unfolding(crate::specs::ReadingRole::data_at))]
fn data_at(alloc: Global, at: usize, tokens: &[Token]) -> Found<'_, Role>
    ensures { IfOk result (λ found. Reads (λ x. (x.0, placed x.1.now)) found (data_at at (placed tokens.now))) }
{
    let Some((base, rest)) = assigned_expression_at(alloc, tokens)? else {
        return Ok(None);
    };
    let base = base.tree;
    Ok(Some((Role::Data { at, base }, rest)))
}

/// Behind a reserved word.
fn word_role_by(alloc: Global, word: Word, at: usize, tokens: &[Token]) -> Found<'_, Role>
    ensures { IfOk result (λ found. Reads (λ x. (x.0, placed x.1.now)) found (word_role_by word at (placed tokens.now))) }
{
    match word {
        Word::Stack => stack_at(alloc, at, tokens),
        Word::Return => return_at(alloc, at, tokens),
        Word::Arguments => arguments_at(alloc, at, tokens),
        Word::Temporaries => temporaries_at(alloc, at, tokens),
        Word::Saved => saved_at(alloc, at, tokens),
        Word::Code => code_at(alloc, at, tokens),
        Word::Data => data_at(alloc, at, tokens),
        _ => Ok(None),
    }
}

/// A role that the tokens begin with, and the tokens behind it.
#[tactic(auto, unfolding(crate::specs::ReadingRole::role_at))]
pub(crate) fn role_at(alloc: Global, tokens: &[Token]) -> Found<'_, Role>
    ensures { IfOk result (λ found. Reads (λ x. (x.0, placed x.1.now)) found (role_at (placed tokens.now))) }
{
    let Some((first, rest)) = tokens.split_first() else {
        return Ok(None);
    };
    match &first.kind {
        Kind::Word(word) => word_role_by(alloc, *word, first.start, rest),
        _ => Ok(None),
    }
}
