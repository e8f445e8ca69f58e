//! Terminators.

ghost use Rattle.std.specs.Prelude.{◌≡◌, IfSome, length};
ghost use Rattle.vg_irparse.specs.Placed.{placed, placed_one};
ghost use Rattle.vg_irparse.specs.Answer.{Gives};
ghost use Rattle.vg_irparse.specs.ReadingType.{most_brackets};
ghost use Rattle.vg_irread.specs.ReadingOperand.{IsWidth};
ghost use Rattle.vg_irread.specs.ReadingTerminator;

use crate::instruction::condition_at;
use crate::number::number_of;
use crate::operand::{any_typed_at, is_number_for, local_at, sign_at};
use crate::place::{behind, spot, wanted};
use crate::types::{any_type_at, begins_type};
use crate::word::is_word;
use sqlite_items::{Boxed, Items};
use std::alloc::Global;
use vg_ir::{Branch, Case, Jump, NameAt, Number, Return, Switch, Terminator};
use vg_irlex::{Lexeme, piece};
use vg_irparse::{Role, Stop, Wanted};

/// `label %b`
pub(crate) fn label_at<'a>(
    alloc: Global,
    text: &[u8],
    tokens: &'a [Lexeme],
) -> Result<(NameAt, &'a [Lexeme]), Stop>
    ensures { Gives (λ x. (x.0, placed text.now x.1.now)) result (ReadingTerminator.label_at most_brackets (placed text.now tokens.now)) }
{
    let (_, rest) = sign_at(b"label", wanted(Role::Plain), text, tokens)?;
    local_at(alloc, wanted(Role::Plain), text, rest)
}

/// Behind `br`: `label %b`
#[tactic(auto, unfolding(crate::specs::ReadingTerminator::jump_at))]
fn jump_at<'a>(
    alloc: Global,
    at: usize,
    text: &[u8],
    tokens: &'a [Lexeme],
) -> Result<(Terminator, &'a [Lexeme]), Stop>
    ensures { Gives (λ x. (x.0, placed text.now x.1.now)) result (ReadingTerminator.jump_at at most_brackets (placed text.now tokens.now)) }
{
    let (target, rest) = label_at(alloc, text, tokens)?;
    let jump = Jump {
        at: spot(at),
        target,
    };
    Ok((Terminator::Jump(Boxed::new(alloc, jump)?), rest))
}

/// Behind `br`: `i1 c, label %a, label %b`
#[tactic(auto, unfolding(crate::specs::ReadingTerminator::branch_at))]
fn branch_at<'a>(
    alloc: Global,
    at: usize,
    text: &[u8],
    tokens: &'a [Lexeme],
) -> Result<(Terminator, &'a [Lexeme]), Stop>
    ensures { Gives (λ x. (x.0, placed text.now x.1.now)) result (ReadingTerminator.branch_at at most_brackets (placed text.now tokens.now)) }
{
    let (condition, rest) = condition_at(alloc, text, tokens)?;
    let (_, rest) = sign_at(b",", wanted(Role::Plain), text, rest)?;
    let (then, rest) = label_at(alloc, text, rest)?;
    let (_, rest) = sign_at(b",", wanted(Role::Plain), text, rest)?;
    let (otherwise, rest) = label_at(alloc, text, rest)?;
    let branch = Branch {
        at: spot(at),
        condition,
        then,
        otherwise,
    };
    Ok((Terminator::Branch(Boxed::new(alloc, branch)?), rest))
}

/// `br`
fn br_at<'a>(
    alloc: Global,
    text: &[u8],
    tokens: &'a [Lexeme],
) -> Result<(Terminator, &'a [Lexeme]), Stop>
    ensures { Gives (λ x. (x.0, placed text.now x.1.now)) result (ReadingTerminator.br_at most_brackets (placed text.now tokens.now)) }
{
    let (at, rest) = sign_at(b"br", wanted(Role::Plain), text, tokens)?;
    let Some((next, _)) = rest.split_first() else {
        return branch_at(alloc, at, text, rest);
    };
    if is_word(b"label", piece(text, *next)) {
        return jump_at(alloc, at, text, rest);
    }
    branch_at(alloc, at, text, rest)
}

/// A number of an integer of so many bits, or at another type, and its place.
#[tactic(auto, using(crate::proofs::Steps::code_steps))]
fn number_at<'a>(
    width: Option<u8>,
    wanted: Wanted,
    text: &[u8],
    tokens: &'a [Lexeme],
) -> Result<((Number, usize), &'a [Lexeme]), Stop>
    requires { IfSome width (λ w. IsWidth w) }
    ensures { Gives (λ x. (x.0, placed text.now x.1.now)) result (ReadingTerminator.number_at width wanted most_brackets (placed text.now tokens.now)) }
{
    let wrong = Stop::Leaves {
        left: tokens.len(),
        wanted,
    };
    let Some((first, rest)) = tokens.split_first() else {
        return Err(wrong);
    };
    let bytes = piece(text, *first);
    if !is_number_for(width, bytes) {
        return Err(wrong);
    }
    Ok(((number_of(bytes), first.start), rest))
}

/// `T n, label %b`
#[tactic(auto, unfolding(crate::specs::ReadingTerminator::case_at))]
fn case_at<'a>(
    alloc: Global,
    text: &[u8],
    tokens: &'a [Lexeme],
) -> Result<(Case, &'a [Lexeme]), Stop>
    ensures { Gives (λ x. (x.0, placed text.now x.1.now)) result (ReadingTerminator.case_at most_brackets (placed text.now tokens.now)) }
{
    let (ty, rest) = any_type_at(alloc, wanted(Role::AnyType), text, tokens)?;
    let width = ty.ty.integer_width();
    let ((number, at), rest) = number_at(width, behind(Role::Plain), text, rest)?;
    let (_, rest) = sign_at(b",", wanted(Role::Plain), text, rest)?;
    let (target, rest) = label_at(alloc, text, rest)?;
    let at = spot(at);
    Ok((
        Case {
            ty,
            number,
            at,
            target,
        },
        rest,
    ))
}

/// The cases of a `switch`.
fn cases_at<'a>(
    alloc: Global,
    text: &[u8],
    tokens: &'a [Lexeme],
) -> Result<(Items<Case>, &'a [Lexeme]), Stop>
    ensures { Gives (λ x. (x.0, placed text.now x.1.now)) result (ReadingTerminator.cases_at most_brackets (placed text.now tokens.now)) }
{
    let mut cases = Items::new(alloc);
    let mut rest = tokens;
    let mut fuel = tokens.len() + 1;
    while fuel > 0 {
        if !begins_type(text, rest) {
            return Ok((cases, rest));
        }
        let (case, behind) = case_at(alloc, text, rest)?;
        cases.push(case)?;
        rest = behind;
        fuel -= 1;
    }
    Err(Stop::OutOfMemory)
}

/// `switch T v, label %d [ cases ]`
#[tactic(auto, unfolding(crate::specs::ReadingTerminator::switch_at))]
fn switch_at<'a>(
    alloc: Global,
    text: &[u8],
    tokens: &'a [Lexeme],
) -> Result<(Terminator, &'a [Lexeme]), Stop>
    ensures { Gives (λ x. (x.0, placed text.now x.1.now)) result (ReadingTerminator.switch_at most_brackets (placed text.now tokens.now)) }
{
    let (at, rest) = sign_at(b"switch", wanted(Role::Plain), text, tokens)?;
    let (value, rest) = any_typed_at(alloc, wanted(Role::AnyType), text, rest)?;
    let (_, rest) = sign_at(b",", wanted(Role::Plain), text, rest)?;
    let (otherwise, rest) = label_at(alloc, text, rest)?;
    let (_, rest) = sign_at(b"[", wanted(Role::Plain), text, rest)?;
    let (cases, rest) = cases_at(alloc, text, rest)?;
    let (_, rest) = sign_at(b"]", wanted(Role::AnyType), text, rest)?;
    let switch = Switch {
        at: spot(at),
        value,
        otherwise,
        cases,
    };
    Ok((Terminator::Switch(Boxed::new(alloc, switch)?), rest))
}

/// Behind `ret`: `void`
#[tactic(auto, unfolding(crate::specs::ReadingTerminator::return_void_at))]
fn return_void_at<'a>(
    alloc: Global,
    at: usize,
    text: &[u8],
    tokens: &'a [Lexeme],
) -> Result<(Terminator, &'a [Lexeme]), Stop>
    ensures { Gives (λ x. (x.0, placed text.now x.1.now)) result (ReadingTerminator.return_void_at at most_brackets (placed text.now tokens.now)) }
{
    let (_, rest) = sign_at(b"void", wanted(Role::AnyType), text, tokens)?;
    let value = None;
    let given = Return {
        at: spot(at),
        value,
    };
    Ok((Terminator::Return(Boxed::new(alloc, given)?), rest))
}

/// Behind `ret`: `T v`
#[tactic(auto, unfolding(crate::specs::ReadingTerminator::return_value_at))]
fn return_value_at<'a>(
    alloc: Global,
    at: usize,
    text: &[u8],
    tokens: &'a [Lexeme],
) -> Result<(Terminator, &'a [Lexeme]), Stop>
    ensures { Gives (λ x. (x.0, placed text.now x.1.now)) result (ReadingTerminator.return_value_at at most_brackets (placed text.now tokens.now)) }
{
    let (value, rest) = any_typed_at(alloc, wanted(Role::AnyType), text, tokens)?;
    let given = Return {
        at: spot(at),
        value: Some(value),
    };
    Ok((Terminator::Return(Boxed::new(alloc, given)?), rest))
}

/// `ret`
fn return_at<'a>(
    alloc: Global,
    text: &[u8],
    tokens: &'a [Lexeme],
) -> Result<(Terminator, &'a [Lexeme]), Stop>
    ensures { Gives (λ x. (x.0, placed text.now x.1.now)) result (ReadingTerminator.return_at most_brackets (placed text.now tokens.now)) }
{
    let (at, rest) = sign_at(b"ret", wanted(Role::Plain), text, tokens)?;
    let Some((next, _)) = rest.split_first() else {
        return return_value_at(alloc, at, text, rest);
    };
    if is_word(b"void", piece(text, *next)) {
        return return_void_at(alloc, at, text, rest);
    }
    return_value_at(alloc, at, text, rest)
}

/// `unreachable`
#[tactic(auto, unfolding(crate::specs::ReadingTerminator::unreachable_at))]
fn unreachable_at<'a>(text: &[u8], tokens: &'a [Lexeme]) -> Result<(Terminator, &'a [Lexeme]), Stop>
    ensures { Gives (λ x. (x.0, placed text.now x.1.now)) result (ReadingTerminator.unreachable_at most_brackets (placed text.now tokens.now)) }
{
    let (at, rest) = sign_at(b"unreachable", wanted(Role::Plain), text, tokens)?;
    Ok((Terminator::Unreachable { at: spot(at) }, rest))
}

/// A terminator, by its word.
pub fn terminator_at<'a>(
    alloc: Global,
    text: &[u8],
    tokens: &'a [Lexeme],
) -> Result<(Terminator, &'a [Lexeme]), Stop>
    ensures { Gives (λ x. (x.0, placed text.now x.1.now)) result (ReadingTerminator.terminator_at most_brackets (placed text.now tokens.now)) }
{
    let Some((first, _)) = tokens.split_first() else {
        return unreachable_at(text, tokens);
    };
    let word = piece(text, *first);
    if is_word(b"br", word) {
        return br_at(alloc, text, tokens);
    }
    if is_word(b"switch", word) {
        return switch_at(alloc, text, tokens);
    }
    if is_word(b"ret", word) {
        return return_at(alloc, text, tokens);
    }
    unreachable_at(text, tokens)
}
