//! Initialisers of globals.

ghost use Rattle.std.specs.Prelude.{◌≡◌, ◌<◌, ◌≤◌, IfOk, IfSome, length};
ghost use Rattle.vg_irlex.specs.Lexing.{is_c_quoted};
ghost use Rattle.vg_irparse.specs.Placed.{placed, placed_one};
ghost use Rattle.vg_irparse.specs.Answer.{Gives};
ghost use Rattle.vg_irparse.specs.ReadingType.{most_brackets};
ghost use Rattle.vg_irparse.specs.Text.{c_bytes};
ghost use Rattle.vg_irparse.specs.Tree.{simple_of};
ghost use Rattle.vg_irread.specs.Reading.{many_at};
ghost use Rattle.vg_irread.specs.ReadingOperand.{IsWidth};
ghost use Rattle.vg_irglobal.specs.ReadingInitial;

use crate::word::next_is;
use sqlite_items::Items;
use std::alloc::{AllocError, Global};
use vg_ir::{Initializer, Text, TypeAt};
use vg_irlex::{Lexeme, piece};
use vg_irparse::{Role, Stop, bare_bytes, is_global, is_quoted, name_of};
use vg_irread::{
    any_type_at, behind, is_constant, is_number_for, number_of, sign_at, spot, wanted,
};

/// So many brackets of initialisers stand in one another at most. Where a text has more, there is no memory for it.
const MOST_BRACKETS: u16 = 1000;

/// A quoted text behind a `c`.
fn is_c_quoted(text: &[u8]) -> bool
    ensures { result ≡ is_c_quoted text.now }
{
    match text.split_first() {
        Some((first, rest)) => *first == b'c' && is_quoted(rest),
        None => false,
    }
}

/// An initialiser of one lexeme.
fn is_simple_for(width: Option<u8>, text: &[u8]) -> bool
    requires { IfSome width (λ w. IsWidth w) }
    ensures { result ≡ ReadingInitial.is_simple_for width text.now }
{
    is_global(text)
        || is_constant(text)
        || b"zeroinitializer".as_slice() == text
        || is_c_quoted(text)
        || is_number_for(width, text)
}

/// The bytes of a quoted text behind a `c`.
fn c_bytes(alloc: Global, text: &[u8]) -> Result<Text, AllocError>
    ensures { IfOk result (λ bytes. bytes ≡ c_bytes text.now) }
{
    match text.split_first() {
        Some((_, rest)) => bare_bytes(alloc, rest),
        None => bare_bytes(alloc, text),
    }
}

/// What an initialiser of one lexeme is.
fn simple_of(alloc: Global, text: &[u8], at: usize) -> Result<Initializer, AllocError>
    ensures { IfOk result (λ found. found ≡ simple_of text.now at) }
{
    let at = spot(at);
    if is_global(text) {
        let name = name_of(alloc, text)?;
        return Ok(Initializer::Global { name, at });
    }
    if is_c_quoted(text) {
        let text = c_bytes(alloc, text)?;
        return Ok(Initializer::Text { text, at });
    }
    if b"true".as_slice() == text {
        return Ok(Initializer::True { at });
    }
    if b"false".as_slice() == text {
        return Ok(Initializer::False { at });
    }
    if b"null".as_slice() == text {
        return Ok(Initializer::Null { at });
    }
    if b"zeroinitializer".as_slice() == text {
        return Ok(Initializer::Zero { at });
    }
    if b"undef".as_slice() == text {
        return Ok(Initializer::Undef { at });
    }
    if b"poison".as_slice() == text {
        return Ok(Initializer::Poison { at });
    }
    let number = number_of(text);
    Ok(Initializer::Number { number, at })
}

/// An initialiser of one lexeme, and what stands behind it.
#[tactic(auto, using(crate::proofs::Steps::code_steps))]
fn simple_at<'a>(
    alloc: Global,
    width: Option<u8>,
    text: &[u8],
    tokens: &'a [Lexeme],
) -> Result<(Initializer, &'a [Lexeme]), Stop>
    requires { IfSome width (λ w. IsWidth w) }
    ensures { Gives (λ x. (x.0, placed text.now x.1.now)) result (ReadingInitial.simple_at width most_brackets (placed text.now tokens.now)) }
{
    let wrong = Stop::Leaves {
        left: tokens.len(),
        wanted: behind(Role::Initial),
    };
    let Some((first, rest)) = tokens.split_first() else {
        return Err(wrong);
    };
    let bytes = piece(text, *first);
    if !is_simple_for(width, bytes) {
        return Err(wrong);
    }
    let initial = simple_of(alloc, bytes, first.start)?;
    Ok((initial, rest))
}

/// `T INIT`
#[cycle(initials)]
#[tactic(auto, unfolding(crate::specs::ReadingInitial::part_at))]
fn part_at<'a>(
    alloc: Global,
    depth: u16,
    text: &[u8],
    tokens: &'a [Lexeme],
) -> Result<((TypeAt, Initializer), &'a [Lexeme]), Stop>
    ensures { Gives (λ x. (x.0, placed text.now x.1.now)) result (ReadingInitial.part_at (ReadingInitial.initial_within depth) most_brackets (placed text.now tokens.now)) }
{
    let (ty, rest) = any_type_at(alloc, wanted(Role::AnyType), text, tokens)?;
    let width = ty.ty.integer_width();
    let (initial, rest) = initial_within(alloc, depth, width, text, rest)?;
    Ok(((ty, initial), rest))
}

/// `, T INIT`
#[cycle(initials)]
#[tactic(auto, unfolding(crate::specs::ReadingInitial::next_part_at))]
fn next_part_at<'a>(
    alloc: Global,
    depth: u16,
    text: &[u8],
    tokens: &'a [Lexeme],
) -> Result<((TypeAt, Initializer), &'a [Lexeme]), Stop>
    ensures { Gives (λ x. (x.0, placed text.now x.1.now)) result (ReadingInitial.next_part_at (ReadingInitial.initial_within depth) most_brackets (placed text.now tokens.now)) }
{
    let (_, rest) = sign_at(b",", wanted(Role::Plain), text, tokens)?;
    part_at(alloc, depth, text, rest)
}

/// The parts behind the first one.
#[cycle(initials)]
fn more_parts_at<'a>(
    alloc: Global,
    depth: u16,
    text: &[u8],
    tokens: &'a [Lexeme],
) -> Result<(Items<(TypeAt, Initializer)>, &'a [Lexeme]), Stop>
    ensures { Gives (λ x. (x.0, placed text.now x.1.now)) result (many_at ReadingInitial.comma (ReadingInitial.next_part_at (ReadingInitial.initial_within depth)) most_brackets (placed text.now tokens.now)) }
{
    let mut parts = Items::new(alloc);
    let mut rest = tokens;
    let mut fuel = tokens.len() + 1;
    while fuel > 0 {
        if !next_is(b",", text, rest) {
            return Ok((parts, rest));
        }
        let (part, after) = next_part_at(alloc, depth, text, rest)?;
        parts.push(part)?;
        rest = after;
        fuel -= 1;
    }
    Err(Stop::OutOfMemory)
}

/// `T INIT, ..`
#[cycle(initials)]
#[tactic(auto, unfolding(crate::specs::ReadingInitial::parts_at))]
fn parts_at<'a>(
    alloc: Global,
    depth: u16,
    text: &[u8],
    tokens: &'a [Lexeme],
) -> Result<(Items<(TypeAt, Initializer)>, &'a [Lexeme]), Stop>
    ensures { Gives (λ x. (x.0, placed text.now x.1.now)) result (ReadingInitial.parts_at (ReadingInitial.initial_within depth) most_brackets (placed text.now tokens.now)) }
{
    let (first, rest) = part_at(alloc, depth, text, tokens)?;
    let (more, rest) = more_parts_at(alloc, depth, text, rest)?;
    let mut parts = Items::new(alloc);
    parts.push(first)?;
    parts.append(more)?;
    Ok((parts, rest))
}

/// `[T INIT, ..]`
#[cycle(initials)]
#[tactic(auto, unfolding(crate::specs::ReadingInitial::elements_at))]
fn elements_at<'a>(
    alloc: Global,
    depth: u16,
    text: &[u8],
    tokens: &'a [Lexeme],
) -> Result<(Initializer, &'a [Lexeme]), Stop>
    ensures { Gives (λ x. (x.0, placed text.now x.1.now)) result (ReadingInitial.elements_at (ReadingInitial.initial_within depth) most_brackets (placed text.now tokens.now)) }
{
    let (at, rest) = sign_at(b"[", behind(Role::Initial), text, tokens)?;
    let (elements, rest) = parts_at(alloc, depth, text, rest)?;
    let (_, rest) = sign_at(b"]", wanted(Role::Plain), text, rest)?;
    let at = spot(at);
    Ok((Initializer::Array { elements, at }, rest))
}

/// `{ T INIT, .. }`
#[cycle(initials)]
#[tactic(auto, unfolding(crate::specs::ReadingInitial::fields_at))]
fn fields_at<'a>(
    alloc: Global,
    depth: u16,
    text: &[u8],
    tokens: &'a [Lexeme],
) -> Result<(Initializer, &'a [Lexeme]), Stop>
    ensures { Gives (λ x. (x.0, placed text.now x.1.now)) result (ReadingInitial.fields_at (ReadingInitial.initial_within depth) most_brackets (placed text.now tokens.now)) }
{
    let (at, rest) = sign_at(b"{", behind(Role::Initial), text, tokens)?;
    let (fields, rest) = parts_at(alloc, depth, text, rest)?;
    let (_, rest) = sign_at(b"}", wanted(Role::Plain), text, rest)?;
    let at = spot(at);
    Ok((Initializer::Struct { fields, at }, rest))
}

/// An initialiser with at most so many brackets of initialisers in one another.
#[cycle(initials)]
fn initial_within<'a>(
    alloc: Global,
    depth: u16,
    width: Option<u8>,
    text: &[u8],
    tokens: &'a [Lexeme],
) -> Result<(Initializer, &'a [Lexeme]), Stop>
    requires { IfSome width (λ w. IsWidth w) }
    ensures { Gives (λ x. (x.0, placed text.now x.1.now)) result (ReadingInitial.initial_within depth width most_brackets (placed text.now tokens.now)) }
{
    if next_is(b"[", text, tokens) {
        if depth == 0 {
            return Err(Stop::OutOfMemory);
        }
        return elements_at(alloc, depth - 1, text, tokens);
    }
    if next_is(b"{", text, tokens) {
        if depth == 0 {
            return Err(Stop::OutOfMemory);
        }
        return fields_at(alloc, depth - 1, text, tokens);
    }
    simple_at(alloc, width, text, tokens)
}

/// An initialiser at an integer type of so many bits, or at another type.
pub fn initial_at<'a>(
    alloc: Global,
    width: Option<u8>,
    text: &[u8],
    tokens: &'a [Lexeme],
) -> Result<(Initializer, &'a [Lexeme]), Stop>
    requires { IfSome width (λ w. IsWidth w) }
    ensures { Gives (λ x. (x.0, placed text.now x.1.now)) result (ReadingInitial.initial_at width most_brackets (placed text.now tokens.now)) }
{
    initial_within(alloc, MOST_BRACKETS, width, text, tokens)
}
