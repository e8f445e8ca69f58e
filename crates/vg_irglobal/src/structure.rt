//! Named structures.

ghost use Rattle.std.specs.Prelude.{◌≡◌};
ghost use Rattle.vg_irparse.specs.Placed.{placed, placed_one};
ghost use Rattle.vg_irparse.specs.Answer.{Gives};
ghost use Rattle.vg_irparse.specs.ReadingType.{most_brackets, wanted};
ghost use Rattle.vg_irparse.specs.declared.role.Role.TheVariants as roles;
ghost use Rattle.vg_irread.specs.ReadingOperand;
ghost use Rattle.vg_irglobal.specs.ReadingStructure;

use crate::word::next_is;
use std::alloc::Global;
use vg_ir::{NameAt, Structure, TypeAt};
use vg_irlex::{Lexeme, piece};
use vg_irparse::{Role, Stop, is_local, name_of};
use vg_irread::{any_type_at, sign_at, spot, wanted};

/// A `%` name.
#[tactic(auto, using(crate::proofs::Steps::code_steps))]
fn local_at<'a>(
    alloc: Global,
    text: &[u8],
    tokens: &'a [Lexeme],
) -> Result<(NameAt, &'a [Lexeme]), Stop>
    ensures { Gives (λ x. (x.0, placed text.now x.1.now)) result (ReadingOperand.local_at (wanted roles.Plain) most_brackets (placed text.now tokens.now)) }
{
    let wrong = Stop::Leaves {
        left: tokens.len(),
        wanted: wanted(Role::Plain),
    };
    let Some((first, rest)) = tokens.split_first() else {
        return Err(wrong);
    };
    let bytes = piece(text, *first);
    if !is_local(bytes) {
        return Err(wrong);
    }
    let name = name_of(alloc, bytes)?;
    let at = spot(first.start);
    Ok((NameAt { name, at }, rest))
}

/// `{ T, .. }`
#[tactic(auto, using(crate::proofs::Steps::code_steps))]
fn fields_type_at<'a>(
    alloc: Global,
    text: &[u8],
    tokens: &'a [Lexeme],
) -> Result<(TypeAt, &'a [Lexeme]), Stop>
    ensures { Gives (λ x. (x.0, placed text.now x.1.now)) result (ReadingStructure.fields_type_at most_brackets (placed text.now tokens.now)) }
{
    if !next_is(b"{", text, tokens) {
        return Err(Stop::Leaves {
            left: tokens.len(),
            wanted: wanted(Role::AnyType),
        });
    }
    any_type_at(alloc, wanted(Role::AnyType), text, tokens)
}

/// `%name = type { T, .. }`
#[tactic(auto, unfolding(crate::specs::ReadingStructure::structure_at))]
pub fn structure_at<'a>(
    alloc: Global,
    text: &[u8],
    tokens: &'a [Lexeme],
) -> Result<(Structure, &'a [Lexeme]), Stop>
    ensures { Gives (λ x. (x.0, placed text.now x.1.now)) result (ReadingStructure.structure_at most_brackets (placed text.now tokens.now)) }
{
    let (name, rest) = local_at(alloc, text, tokens)?;
    let (_, rest) = sign_at(b"=", wanted(Role::Plain), text, rest)?;
    let (_, rest) = sign_at(b"type", wanted(Role::Plain), text, rest)?;
    let (ty, rest) = fields_type_at(alloc, text, rest)?;
    Ok((Structure { name, ty }, rest))
}
