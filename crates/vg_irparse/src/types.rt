//! Types.

ghost use Rattle.std.specs.Prelude.{◌≡◌, ◌∷◌, [], ◌++◌, IfOk, length, false, true};
ghost use Rattle.vg_irparse.specs.Placed.{placed, placed_one};
ghost use Rattle.vg_irparse.specs.Answer.{Gives};
ghost use Rattle.vg_irparse.specs.ReadingType;

use crate::name::name_of;
use crate::number::exact_value;
use crate::part::Part;
use crate::role::{Role, Wanted};
use crate::stop::Stop;
use crate::taking::{fixed_at, separator_at};
use crate::text::{are_digits, is_local};
use crate::words::integer_width;
use sqlite_items::{Boxed, Items};
use std::alloc::{AllocError, Global};
use vg_ir::{Spot, Ty, TypeAt};
use vg_irlex::{Lexeme, piece};

/// So many brackets stand in one another at most. Where a text has more, there is no memory for it.
const MOST_BRACKETS: u16 = 1000;

/// A place where this is wanted, not behind a type.
fn wanted(role: Role) -> Wanted
    ensures { result ≡ ReadingType.wanted role }
{
    Wanted {
        role,
        behind_type: false,
    }
}

/// A place behind a type.
fn behind_type() -> Wanted
    ensures { result ≡ ReadingType.behind_type }
{
    Wanted {
        role: Role::Plain,
        behind_type: true,
    }
}

fn spot(at: usize) -> Spot
    ensures { result ≡ record { unit = 0; at = at } }
{
    Spot { unit: 0, at }
}

/// A type of one lexeme.
fn simple_type(alloc: Global, text: &[u8]) -> Result<Option<Ty>, AllocError>
    ensures { IfOk result (λ found. found ≡ ReadingType.simple_type text.now) }
{
    if let Some(width) = integer_width(text) {
        return Ok(Some(Ty::Int(width)));
    }
    if text == b"ptr".as_slice() {
        return Ok(Some(Ty::Ptr));
    }
    if is_local(text) {
        let name = name_of(alloc, text)?;
        return Ok(Some(Ty::Named(name)));
    }
    Ok(None)
}

/// A number of elements.
#[tactic(auto, using(crate::proofs::Placed::placed_steps))]
fn length_at<'a>(text: &[u8], tokens: &'a [Lexeme]) -> Result<(u64, &'a [Lexeme]), Stop>
    ensures { Gives (λ x. (x.0, placed text.now x.1.now)) result (ReadingType.length_at (placed text.now tokens.now)) }
{
    let wrong = Stop::Leaves {
        left: tokens.len(),
        wanted: wanted(Role::Plain),
    };
    let Some((first, rest)) = tokens.split_first() else {
        return Err(wrong);
    };
    let digits = piece(text, *first);
    if are_digits(digits) {
        if let Some(count) = exact_value(digits) {
            return Ok((count, rest));
        }
    }
    Err(wrong)
}

/// Behind a `[`.
#[cycle(types)]
#[tactic(auto, unfolding(crate::specs::ReadingType::array_at))]
fn array_at<'a>(
    alloc: Global,
    depth: u16,
    text: &[u8],
    tokens: &'a [Lexeme],
) -> Result<(Part, &'a [Lexeme]), Stop>
    ensures { Gives (λ x. (x.0, placed text.now x.1.now)) result (ReadingType.array_at (ReadingType.part_within depth) (placed text.now tokens.now)) }
{
    let (count, rest) = length_at(text, tokens)?;
    let (_, rest) = fixed_at(b"x", wanted(Role::Plain), text, rest)?;
    let (element, rest) = part_within(alloc, depth, wanted(Role::AnyType), text, rest)?;
    let (_, rest) = fixed_at(b"]", behind_type(), text, rest)?;
    let ty = Ty::Array(count, Boxed::new(alloc, element.ty)?);
    let leaves = element.leaves;
    Ok((Part { ty, leaves }, rest))
}

/// A field, and whether it is the last one.
#[cycle(types)]
#[tactic(auto, unfolding(crate::specs::ReadingType::field_at))]
fn field_at<'a>(
    alloc: Global,
    depth: u16,
    text: &[u8],
    tokens: &'a [Lexeme],
) -> Result<((Part, bool), &'a [Lexeme]), Stop>
    ensures { Gives (λ x. (x.0, placed text.now x.1.now)) result (ReadingType.field_at (ReadingType.part_within depth) (placed text.now tokens.now)) }
{
    let (field, rest) = part_within(alloc, depth, wanted(Role::AnyType), text, tokens)?;
    let (last, rest) = separator_at(b"}", behind_type(), text, rest)?;
    Ok(((field, last), rest))
}

/// The fields of a structure, up to the `}` behind them.
#[cycle(types)]
fn fields_at<'a>(
    alloc: Global,
    depth: u16,
    text: &[u8],
    tokens: &'a [Lexeme],
) -> Result<(Part, &'a [Lexeme]), Stop>
    ensures { Gives (λ x. (x.0, placed text.now x.1.now)) result (ReadingType.fields_at (length tokens.now) (ReadingType.part_within depth) [] [] (placed text.now tokens.now)) }
{
    let mut types = Items::new(alloc);
    let mut leaves = Items::new(alloc);
    let mut rest = tokens;
    let mut fuel = tokens.len();
    while fuel > 0 {
        let ((field, last), behind) = field_at(alloc, depth, text, rest)?;
        types.push(field.ty)?;
        leaves.append(field.leaves)?;
        if last {
            let ty = Ty::Struct(types);
            return Ok((Part { ty, leaves }, behind));
        }
        rest = behind;
        fuel -= 1;
    }
    Err(Stop::OutOfMemory)
}

/// A type with parts, of which this is the first lexeme.
#[cycle(types)]
#[tactic(auto, unfolding(crate::specs::ReadingType::bracketed_at), using(crate::proofs::Placed::placed_steps))]
fn bracketed_at<'a>(
    alloc: Global,
    depth: u16,
    wanted: Wanted,
    text: &[u8],
    first: Lexeme,
    tokens: &'a [Lexeme],
) -> Result<(Part, &'a [Lexeme]), Stop>
    ensures { Gives (λ x. (x.0, placed text.now x.1.now)) result (ReadingType.bracketed_at (ReadingType.part_within depth) wanted (placed_one text.now first) (placed text.now tokens.now)) }
{
    let sign = piece(text, first);
    if sign == b"[".as_slice() {
        return array_at(alloc, depth, text, tokens);
    }
    if sign == b"{".as_slice() {
        return fields_at(alloc, depth, text, tokens);
    }
    Err(Stop::Leaves {
        left: 1 + tokens.len(),
        wanted,
    })
}

/// A type with at most so many brackets in one another.
#[cycle(types)]
fn part_within<'a>(
    alloc: Global,
    depth: u16,
    wanted: Wanted,
    text: &[u8],
    tokens: &'a [Lexeme],
) -> Result<(Part, &'a [Lexeme]), Stop>
    ensures { Gives (λ x. (x.0, placed text.now x.1.now)) result (ReadingType.part_within depth wanted (placed text.now tokens.now)) }
{
    if depth == 0 {
        return Err(Stop::OutOfMemory);
    }
    let Some((first, rest)) = tokens.split_first() else {
        return Err(Stop::Leaves { left: 0, wanted });
    };
    match simple_type(alloc, piece(text, *first))? {
        Some(ty) => {
            let mut leaves = Items::new(alloc);
            leaves.push(spot(first.start))?;
            Ok((Part { ty, leaves }, rest))
        }
        None => bracketed_at(alloc, depth - 1, wanted, text, *first, rest),
    }
}

/// A type of any kind.
pub fn type_at<'a>(
    alloc: Global,
    wanted: Wanted,
    text: &[u8],
    tokens: &'a [Lexeme],
) -> Result<(TypeAt, &'a [Lexeme]), Stop>
    ensures { Gives (λ x. (x.0, placed text.now x.1.now)) result (ReadingType.type_at wanted (placed text.now tokens.now)) }
{
    let Some((first, rest)) = tokens.split_first() else {
        return Err(Stop::Leaves { left: 0, wanted });
    };
    let at = spot(first.start);
    match simple_type(alloc, piece(text, *first))? {
        Some(ty) => {
            let leaves = Items::new(alloc);
            Ok((TypeAt { ty, at, leaves }, rest))
        }
        None => {
            let (part, rest) = bracketed_at(alloc, MOST_BRACKETS, wanted, text, *first, rest)?;
            let Part { ty, leaves } = part;
            Ok((TypeAt { ty, at, leaves }, rest))
        }
    }
}
