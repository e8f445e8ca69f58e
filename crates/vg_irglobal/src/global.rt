//! Globals.

ghost use Rattle.std.specs.Prelude.{◌≡◌};
ghost use Rattle.vg_irparse.specs.Placed.{placed, placed_one};
ghost use Rattle.vg_irparse.specs.Answer.{Gives};
ghost use Rattle.vg_irparse.specs.ReadingType.{most_brackets};
ghost use Rattle.vg_irglobal.specs.ReadingGlobal;

use crate::initial::initial_at;
use crate::word::{address_at, dso_local_at, global_at, kind_at, linkage_at, next_is};
use std::alloc;
use vg_ir::{Alignment, Global};
use vg_irlex::{Lexeme, piece};
use vg_irparse::{Role, Stop, are_digits, kept_value};
use vg_irread::{any_type_at, sign_at, spot, wanted};

/// The number of an alignment.
#[tactic(auto, using(crate::proofs::Steps::code_steps))]
fn alignment_at<'a>(text: &[u8], tokens: &'a [Lexeme]) -> Result<(Alignment, &'a [Lexeme]), Stop>
    ensures { Gives (λ x. (x.0, placed text.now x.1.now)) result (ReadingGlobal.alignment_at most_brackets (placed text.now tokens.now)) }
{
    let wrong = Stop::Leaves {
        left: tokens.len(),
        wanted: wanted(Role::Plain),
    };
    let Some((first, rest)) = tokens.split_first() else {
        return Err(wrong);
    };
    let digits = piece(text, *first);
    if !are_digits(digits) {
        return Err(wrong);
    }
    let bytes = kept_value(digits);
    let at = spot(first.start);
    Ok((Alignment { bytes, at }, rest))
}

/// `, align n`
#[tactic(auto, unfolding(crate::specs::ReadingGlobal::align_at))]
fn align_at<'a>(text: &[u8], tokens: &'a [Lexeme]) -> Result<(Alignment, &'a [Lexeme]), Stop>
    ensures { Gives (λ x. (x.0, placed text.now x.1.now)) result (ReadingGlobal.align_at most_brackets (placed text.now tokens.now)) }
{
    let (_, rest) = sign_at(b",", wanted(Role::Plain), text, tokens)?;
    let (_, rest) = sign_at(b"align", wanted(Role::Plain), text, rest)?;
    alignment_at(text, rest)
}

/// An alignment, where there is one.
fn optional_align_at<'a>(
    text: &[u8],
    tokens: &'a [Lexeme],
) -> Result<(Option<Alignment>, &'a [Lexeme]), Stop>
    ensures { Gives (λ x. (x.0, placed text.now x.1.now)) result (ReadingGlobal.optional_align_at most_brackets (placed text.now tokens.now)) }
{
    if !next_is(b",", text, tokens) {
        return Ok((None, tokens));
    }
    let (align, rest) = align_at(text, tokens)?;
    Ok((Some(align), rest))
}

/// `@name = [linkage] [dso_local] [address] (global | constant) T INIT [, align n]`
#[tactic(auto, unfolding(crate::specs::ReadingGlobal::global_item_at))]
pub fn global_item_at<'a>(
    alloc: alloc::Global,
    text: &[u8],
    tokens: &'a [Lexeme],
) -> Result<(Global, &'a [Lexeme]), Stop>
    ensures { Gives (λ x. (x.0, placed text.now x.1.now)) result (ReadingGlobal.global_item_at most_brackets (placed text.now tokens.now)) }
{
    let (name, rest) = global_at(alloc, text, tokens)?;
    let (_, rest) = sign_at(b"=", wanted(Role::Plain), text, rest)?;
    let (linkage, rest) = linkage_at(text, rest)?;
    let (_, rest) = dso_local_at(text, rest)?;
    let (_, rest) = address_at(text, rest)?;
    let (constant, rest) = kind_at(text, rest)?;
    let (ty, rest) = any_type_at(alloc, wanted(Role::AnyType), text, rest)?;
    let width = ty.ty.integer_width();
    let (initial, rest) = initial_at(alloc, width, text, rest)?;
    let (align, rest) = optional_align_at(text, rest)?;
    let global = Global {
        name,
        linkage,
        constant,
        ty,
        initial,
        align,
    };
    Ok((global, rest))
}
