//! Instructions.

ghost use Rattle.std.specs.Prelude.{◌≡◌, length};
ghost use Rattle.vg_irparse.specs.Placed.{placed, placed_one};
ghost use Rattle.vg_irparse.specs.Answer.{Gives};
ghost use Rattle.vg_irparse.specs.ReadingType.{most_brackets};
ghost use Rattle.vg_irparse.specs.Words.{operator_flags, cast_flags};
ghost use Rattle.vg_irread.specs.ReadingInstruction;

use crate::operand::{any_typed_at, operand_at, sign_at, value_at};
use crate::place::{behind, spot, wanted};
use crate::types::{any_type_at, value_type_at};
use crate::word::{cast_of, is_cast, is_operator, is_word, operator_of, predicate_of};
use sqlite_items::Boxed;
use std::alloc::Global;
use vg_ir::{
    Binary, BinaryOperator, Cast, CastOperator, Compare, Freeze, Instruction, NameAt, Operand,
    Predicate, Select,
};
use vg_irlex::{Lexeme, piece};
use vg_irparse::{Role, Stop};

/// The word of an instruction with two operands, and its place.
#[tactic(auto, using(crate::proofs::Steps::code_steps))]
fn operator_at<'a>(
    text: &[u8],
    tokens: &'a [Lexeme],
) -> Result<((BinaryOperator, usize), &'a [Lexeme]), Stop>
    ensures { Gives (λ x. (x.0, placed text.now x.1.now)) result (ReadingInstruction.operator_at most_brackets (placed text.now tokens.now)) }
{
    let wrong = Stop::Leaves {
        left: tokens.len(),
        wanted: wanted(Role::Operation),
    };
    let Some((first, rest)) = tokens.split_first() else {
        return Err(wrong);
    };
    match operator_of(piece(text, *first)) {
        Some(operator) => Ok(((operator, first.start), rest)),
        None => Err(wrong),
    }
}

/// What stands behind a word that may lack.
fn skipped_word<'a>(word: &[u8], text: &[u8], tokens: &'a [Lexeme]) -> &'a [Lexeme]
    ensures { placed text.now result.now ≡ ReadingInstruction.skipped_word word.now (placed text.now tokens.now) }
{
    let Some((first, rest)) = tokens.split_first() else {
        return tokens;
    };
    if piece(text, *first) == word {
        return rest;
    }
    tokens
}

/// What stands behind the flags of an operator.
fn skipped_flags<'a>(operator: BinaryOperator, text: &[u8], tokens: &'a [Lexeme]) -> &'a [Lexeme]
    ensures { placed text.now result.now ≡ ReadingInstruction.skipped_words (operator_flags operator) (placed text.now tokens.now) }
{
    match operator {
        BinaryOperator::Add | BinaryOperator::Sub | BinaryOperator::Mul | BinaryOperator::Shl => {
            let rest = skipped_word(b"nuw", text, tokens);
            skipped_word(b"nsw", text, rest)
        }
        BinaryOperator::Udiv | BinaryOperator::Sdiv | BinaryOperator::Lshr | BinaryOperator::Ashr =>
            skipped_word(b"exact", text, tokens),
        BinaryOperator::Urem
        | BinaryOperator::Srem
        | BinaryOperator::And
        | BinaryOperator::Or
        | BinaryOperator::Xor => skipped_word(b"disjoint", text, tokens),
    }
}

/// `op {flag} T a, b`
#[tactic(auto, unfolding(crate::specs::ReadingInstruction::binary_at))]
fn binary_at<'a>(
    alloc: Global,
    name: NameAt,
    text: &[u8],
    tokens: &'a [Lexeme],
) -> Result<(Instruction, &'a [Lexeme]), Stop>
    ensures { Gives (λ x. (x.0, placed text.now x.1.now)) result (ReadingInstruction.binary_at name most_brackets (placed text.now tokens.now)) }
{
    let ((operator, at), rest) = operator_at(text, tokens)?;
    let rest = skipped_flags(operator, text, rest);
    let (ty, rest) = value_type_at(alloc, wanted(Role::ValueType), text, rest)?;
    let width = ty.ty.integer_width();
    let (left, rest) = operand_at(alloc, width, behind(Role::Operand), text, rest)?;
    let (_, rest) = sign_at(b",", wanted(Role::Plain), text, rest)?;
    let (right, rest) = operand_at(alloc, width, wanted(Role::Operand), text, rest)?;
    let binary = Binary {
        at: spot(at),
        result: name,
        operator,
        ty,
        left,
        right,
    };
    Ok((Instruction::Binary(Boxed::new(alloc, binary)?), rest))
}

/// The word of a cast, and its place.
#[tactic(auto, using(crate::proofs::Steps::code_steps))]
fn cast_word_at<'a>(
    text: &[u8],
    tokens: &'a [Lexeme],
) -> Result<((CastOperator, usize), &'a [Lexeme]), Stop>
    ensures { Gives (λ x. (x.0, placed text.now x.1.now)) result (ReadingInstruction.cast_word_at most_brackets (placed text.now tokens.now)) }
{
    let wrong = Stop::Leaves {
        left: tokens.len(),
        wanted: wanted(Role::Operation),
    };
    let Some((first, rest)) = tokens.split_first() else {
        return Err(wrong);
    };
    match cast_of(piece(text, *first)) {
        Some(found) => Ok(((found, first.start), rest)),
        None => Err(wrong),
    }
}

/// What `icmp` asks, and its place.
#[tactic(auto, using(crate::proofs::Steps::code_steps))]
fn predicate_at<'a>(
    text: &[u8],
    tokens: &'a [Lexeme],
) -> Result<((Predicate, usize), &'a [Lexeme]), Stop>
    ensures { Gives (λ x. (x.0, placed text.now x.1.now)) result (ReadingInstruction.predicate_at most_brackets (placed text.now tokens.now)) }
{
    let wrong = Stop::Leaves {
        left: tokens.len(),
        wanted: wanted(Role::Plain),
    };
    let Some((first, rest)) = tokens.split_first() else {
        return Err(wrong);
    };
    match predicate_of(piece(text, *first)) {
        Some(found) => Ok(((found, first.start), rest)),
        None => Err(wrong),
    }
}

/// What stands behind the flags of a cast.
fn skipped_cast_flags<'a>(operator: CastOperator, text: &[u8], tokens: &'a [Lexeme]) -> &'a [Lexeme]
    ensures { placed text.now result.now ≡ ReadingInstruction.skipped_words (cast_flags operator) (placed text.now tokens.now) }
{
    match operator {
        CastOperator::Zext | CastOperator::Sext => skipped_word(b"nneg", text, tokens),
        CastOperator::Trunc => {
            let rest = skipped_word(b"nuw", text, tokens);
            skipped_word(b"nsw", text, rest)
        }
        CastOperator::PtrToInt | CastOperator::IntToPtr | CastOperator::Bitcast => tokens,
    }
}

/// `icmp [samesign] P T a, b`
#[tactic(auto, unfolding(crate::specs::ReadingInstruction::compare_at))]
fn compare_at<'a>(
    alloc: Global,
    name: NameAt,
    text: &[u8],
    tokens: &'a [Lexeme],
) -> Result<(Instruction, &'a [Lexeme]), Stop>
    ensures { Gives (λ x. (x.0, placed text.now x.1.now)) result (ReadingInstruction.compare_at name most_brackets (placed text.now tokens.now)) }
{
    let (at, rest) = sign_at(b"icmp", wanted(Role::Operation), text, tokens)?;
    let rest = skipped_word(b"samesign", text, rest);
    let ((predicate, _), rest) = predicate_at(text, rest)?;
    let (ty, rest) = any_type_at(alloc, wanted(Role::AnyType), text, rest)?;
    let width = ty.ty.integer_width();
    let (left, rest) = operand_at(alloc, width, behind(Role::Operand), text, rest)?;
    let (_, rest) = sign_at(b",", wanted(Role::Plain), text, rest)?;
    let (right, rest) = operand_at(alloc, width, wanted(Role::Operand), text, rest)?;
    let compare = Compare {
        at: spot(at),
        result: name,
        predicate,
        ty,
        left,
        right,
    };
    Ok((Instruction::Compare(Boxed::new(alloc, compare)?), rest))
}

/// `i1` and a condition.
pub(crate) fn condition_at<'a>(
    alloc: Global,
    text: &[u8],
    tokens: &'a [Lexeme],
) -> Result<(Operand, &'a [Lexeme]), Stop>
    ensures { Gives (λ x. (x.0, placed text.now x.1.now)) result (ReadingInstruction.condition_at most_brackets (placed text.now tokens.now)) }
{
    let (_, rest) = sign_at(b"i1", wanted(Role::FixedType), text, tokens)?;
    operand_at(alloc, Some(1), behind(Role::Operand), text, rest)
}

/// `select i1 c, T a, T b`
#[tactic(auto, unfolding(crate::specs::ReadingInstruction::select_at))]
fn select_at<'a>(
    alloc: Global,
    name: NameAt,
    text: &[u8],
    tokens: &'a [Lexeme],
) -> Result<(Instruction, &'a [Lexeme]), Stop>
    ensures { Gives (λ x. (x.0, placed text.now x.1.now)) result (ReadingInstruction.select_at name most_brackets (placed text.now tokens.now)) }
{
    let (at, rest) = sign_at(b"select", wanted(Role::Operation), text, tokens)?;
    let (condition, rest) = condition_at(alloc, text, rest)?;
    let (_, rest) = sign_at(b",", wanted(Role::Plain), text, rest)?;
    let (then, rest) = value_at(alloc, wanted(Role::ValueType), text, rest)?;
    let (_, rest) = sign_at(b",", wanted(Role::Plain), text, rest)?;
    let (otherwise, rest) = any_typed_at(alloc, wanted(Role::AnyType), text, rest)?;
    let select = Select {
        at: spot(at),
        result: name,
        condition,
        then,
        otherwise,
    };
    Ok((Instruction::Select(Boxed::new(alloc, select)?), rest))
}

/// `op {flag} T a to U`
#[tactic(auto, unfolding(crate::specs::ReadingInstruction::cast_at))]
fn cast_at<'a>(
    alloc: Global,
    name: NameAt,
    text: &[u8],
    tokens: &'a [Lexeme],
) -> Result<(Instruction, &'a [Lexeme]), Stop>
    ensures { Gives (λ x. (x.0, placed text.now x.1.now)) result (ReadingInstruction.cast_at name most_brackets (placed text.now tokens.now)) }
{
    let ((operator, at), rest) = cast_word_at(text, tokens)?;
    let rest = skipped_cast_flags(operator, text, rest);
    let (operand, rest) = any_typed_at(alloc, wanted(Role::AnyType), text, rest)?;
    let (_, rest) = sign_at(b"to", wanted(Role::Plain), text, rest)?;
    let (target, rest) = value_type_at(alloc, wanted(Role::ValueType), text, rest)?;
    let cast = Cast {
        at: spot(at),
        result: name,
        operator,
        operand,
        target,
    };
    Ok((Instruction::Cast(Boxed::new(alloc, cast)?), rest))
}

/// `freeze T a`
#[tactic(auto, unfolding(crate::specs::ReadingInstruction::freeze_at))]
fn freeze_at<'a>(
    alloc: Global,
    name: NameAt,
    text: &[u8],
    tokens: &'a [Lexeme],
) -> Result<(Instruction, &'a [Lexeme]), Stop>
    ensures { Gives (λ x. (x.0, placed text.now x.1.now)) result (ReadingInstruction.freeze_at name most_brackets (placed text.now tokens.now)) }
{
    let (at, rest) = sign_at(b"freeze", wanted(Role::Operation), text, tokens)?;
    let (operand, rest) = value_at(alloc, wanted(Role::ValueType), text, rest)?;
    let freeze = Freeze {
        at: spot(at),
        result: name,
        operand,
    };
    Ok((Instruction::Freeze(Boxed::new(alloc, freeze)?), rest))
}

/// The instruction behind `%r =`, by its word.
pub(crate) fn operation_at<'a>(
    alloc: Global,
    name: NameAt,
    text: &[u8],
    tokens: &'a [Lexeme],
) -> Result<(Instruction, &'a [Lexeme]), Stop>
    ensures { Gives (λ x. (x.0, placed text.now x.1.now)) result (ReadingInstruction.operation_at name most_brackets (placed text.now tokens.now)) }
{
    let Some((first, _)) = tokens.split_first() else {
        return freeze_at(alloc, name, text, tokens);
    };
    let word = piece(text, *first);
    if is_operator(word) {
        return binary_at(alloc, name, text, tokens);
    }
    if is_cast(word) {
        return cast_at(alloc, name, text, tokens);
    }
    if is_word(b"icmp", word) {
        return compare_at(alloc, name, text, tokens);
    }
    if is_word(b"select", word) {
        return select_at(alloc, name, text, tokens);
    }
    freeze_at(alloc, name, text, tokens)
}
