//! Types, where a value's type or any type may stand.

ghost use Rattle.std.specs.Prelude.{◌≡◌, IfOk, IfSome};
ghost use Rattle.vg_irread.specs.Reading.{next_in};
ghost use Rattle.vg_irparse.specs.Placed.{placed, placed_one};
ghost use Rattle.vg_irparse.specs.Answer.{Gives};
ghost use Rattle.vg_irparse.specs.Words.{entry_of, integer_words, is_one_of};
ghost use Rattle.vg_irread.specs.Kinds.{is_in};
ghost use Rattle.vg_irread.specs.ReadingTerminator.{type_words};
ghost use Rattle.vg_irparse.specs.ReadingType.{most_brackets};
ghost use Rattle.vg_irread.specs.ReadingOperand;
ghost use Rattle.vg_irread.specs.ReadingType;

use crate::place::spot;
use sqlite_items::Items;
use std::alloc::Global;
use vg_ir::{Ty, TypeAt};
use vg_irlex::{Lexeme, piece};
use vg_irparse::{Stop, Wanted, integer_width, is_local, is_one_of, type_at};

/// How many bits an integer type has.
fn width_of(text: &[u8]) -> Option<u8>
    ensures value { result ≡ entry_of integer_words text.now }
    ensures width { IfSome result (λ w. ReadingOperand.IsWidth w) }
{
    integer_width(text)
}

/// An integer or `ptr` of one lexeme.
fn scalar_of(text: &[u8]) -> Option<Ty>
    ensures value { result ≡ ReadingOperand.scalar_by (entry_of integer_words text.now) text.now }
    ensures width { IfSome result (λ ty. ReadingOperand.HasWidth ty) }
{
    if let Some(width) = width_of(text) {
        return Some(Ty::Int(width));
    }
    if text == b"ptr".as_slice() {
        return Some(Ty::Ptr);
    }
    None
}

/// The type of a value: an integer or `ptr`.
#[tactic(auto, using(crate::proofs::Steps::code_steps))]
pub(crate) fn value_type_at<'a>(
    alloc: Global,
    wanted: Wanted,
    text: &[u8],
    tokens: &'a [Lexeme],
) -> Result<(TypeAt, &'a [Lexeme]), Stop>
    ensures value { Gives (λ x. (x.0, placed text.now x.1.now)) result (ReadingOperand.value_type_at wanted most_brackets (placed text.now tokens.now)) }
    ensures width { IfOk result (λ x. ReadingOperand.HasWidth x.0.ty) }
{
    let wrong = Stop::Leaves {
        left: tokens.len(),
        wanted,
    };
    let Some((first, rest)) = tokens.split_first() else {
        return Err(wrong);
    };
    let Some(ty) = scalar_of(piece(text, *first)) else {
        return Err(wrong);
    };
    let at = spot(first.start);
    let leaves = Items::new(alloc);
    Ok((TypeAt { ty, at, leaves }, rest))
}

/// A type of any kind.
pub fn any_type_at<'a>(
    alloc: Global,
    wanted: Wanted,
    text: &[u8],
    tokens: &'a [Lexeme],
) -> Result<(TypeAt, &'a [Lexeme]), Stop>
    ensures value { Gives (λ x. (x.0, placed text.now x.1.now)) result (ReadingType.type_at wanted most_brackets (placed text.now tokens.now)) }
    ensures width { IfOk result (λ x. ReadingOperand.HasWidth x.0.ty) }
{
    type_at(alloc, wanted, text, tokens)
}

const TYPE_WORDS: [&[u8]; 8] = [b"i1", b"i8", b"i16", b"i32", b"i64", b"ptr", b"[", b"{"];

/// Whether a type that is no name may begin with a lexeme.
fn is_type_word(text: &[u8]) -> bool
    ensures { result ≡ is_one_of type_words text.now }
{
    is_one_of(&TYPE_WORDS, text)
}

/// Whether a type may begin with a lexeme.
fn is_type_start(text: &[u8]) -> bool
    ensures { result ≡ is_in ReadingType.type_kinds text.now }
{
    if is_type_word(text) {
        return true;
    }
    is_local(text)
}

/// Whether the next lexeme may begin a type.
pub(crate) fn begins_type(text: &[u8], tokens: &[Lexeme]) -> bool
    ensures { result ≡ next_in ReadingType.type_kinds (placed text.now tokens.now) }
{
    match tokens.split_first() {
        Some((first, _)) => is_type_start(piece(text, *first)),
        None => false,
    }
}
