//! Whole expressions and types.

ghost use Rattle.std.specs.Prelude.{◌≡◌, IfOk};
ghost use Rattle.vg_ast.specs.Placed.{placed};
ghost use Rattle.vg_parse_expr.specs.Lexeme.{Reads};
ghost use Rattle.vg_parse_expr.specs.Parts.{ReadsWithin, operation_at};
ghost use Rattle.vg_parse_expr.specs.Reading.{conditional_at, binding_at, expression_by, expression_within, expression, type_expr};

use crate::lexeme::{name_at, sign_at, word_at};
use crate::operand::{MOST_DEPTH, Operand, SizedType};
use crate::reader::{Found, Reader};
use crate::trees;
use std::alloc::{AllocError, Global};
use vg_tok::{Sign, Token, Word};

impl<F: Fn(Global, u8, u8, &[Token]) -> Found<'_, Operand>> Reader<F> {
    /// Behind the word `if`.
    #[tactic(auto, using(crate::proofs::Steps::conditional_steps))]
    fn conditional_at<'a>(&self, at: usize, tokens: &'a [Token]) -> Found<'a, Operand>
        requires { ReadsWithin self.now.fuel (F.pre self.now.part) (F.post self.now.part) }
        ensures { IfOk result (λ found. Reads (λ x. (x.0, placed x.1.now)) found (conditional_at (expression_within self.now.fuel) at (placed tokens.now))) }
    {
        let Some((condition, rest)) = self.part_then_word(Word::Then, tokens)? else {
            return Ok(None);
        };
        let Some((one, rest)) = self.part_then_word(Word::Else, rest)? else {
            return Ok(None);
        };
        let Some((other, rest)) = self.part(0, rest)? else {
            return Ok(None);
        };
        trees::conditional(self.alloc, at, condition, one, other, rest)
    }

    /// Behind the word `let`.
    #[tactic(auto, using(crate::proofs::Steps::binding_steps))]
    fn binding_at<'a>(&self, at: usize, tokens: &'a [Token]) -> Found<'a, Operand>
        requires { ReadsWithin self.now.fuel (F.pre self.now.part) (F.post self.now.part) }
        ensures { IfOk result (λ found. Reads (λ x. (x.0, placed x.1.now)) found (binding_at (expression_within self.now.fuel) at (placed tokens.now))) }
    {
        let Some((name, rest)) = name_at(self.alloc, tokens)? else {
            return Ok(None);
        };
        let Some((_, rest)) = sign_at(Sign::Equal, rest) else {
            return Ok(None);
        };
        let Some((bound, rest)) = self.part_then_word(Word::In, rest)? else {
            return Ok(None);
        };
        let Some((body, rest)) = self.part(0, rest)? else {
            return Ok(None);
        };
        trees::binding(self.alloc, at, name, bound, body, rest)
    }

    /// An operand and what it goes on with.
    #[tactic(auto, unfolding(crate::specs::Parts::operation_at))]
    fn operation_at<'a>(&self, least: u8, tokens: &'a [Token]) -> Found<'a, Operand>
        requires { ReadsWithin self.now.fuel (F.pre self.now.part) (F.post self.now.part) }
        ensures { IfOk result (λ found. Reads (λ x. (x.0, placed x.1.now)) found (operation_at (expression_within self.now.fuel) least (placed tokens.now))) }
    {
        let Some((left, rest)) = self.operand_at(tokens)? else {
            return Ok(None);
        };
        self.rest_at(least, left, rest)
    }

    /// An expression of any level.
    #[tactic(auto, using(crate::proofs::Steps::any_steps))]
    fn any_at<'a>(&self, tokens: &'a [Token]) -> Found<'a, Operand>
        requires { ReadsWithin self.now.fuel (F.pre self.now.part) (F.post self.now.part) }
        ensures { IfOk result (λ found. Reads (λ x. (x.0, placed x.1.now)) found (expression_by (expression_within self.now.fuel) 0 (placed tokens.now))) }
    {
        if let Some((at, rest)) = word_at(Word::If, tokens) {
            return self.conditional_at(at, rest);
        }
        if let Some((at, rest)) = word_at(Word::Let, tokens) {
            return self.binding_at(at, rest);
        }
        self.operation_at(0, tokens)
    }

    /// An expression of at least a level, whose parts are read with this reader.
    #[tactic(auto, using(crate::proofs::Steps::above_steps))]
    fn expression_by<'a>(&self, least: u8, tokens: &'a [Token]) -> Found<'a, Operand>
        requires { ReadsWithin self.now.fuel (F.pre self.now.part) (F.post self.now.part) }
        ensures { IfOk result (λ found. Reads (λ x. (x.0, placed x.1.now)) found (expression_by (expression_within self.now.fuel) least (placed tokens.now))) }
    {
        if least == 0 {
            return self.any_at(tokens);
        }
        self.operation_at(least, tokens)
    }
}

/// An expression of at least a level that the tokens begin with, in which no more readings than the fuel stand in one
/// another.
#[tactic(auto, unfolding(crate::specs::Reading::expression_within))]
fn expression_within(
    alloc: Global,
    fuel: u8,
    least: u8,
    tokens: &[Token],
) -> Result<Option<(Operand, &[Token])>, AllocError>
    ensures { IfOk result (λ found. Reads (λ x. (x.0, placed x.1.now)) found (expression_within fuel least (placed tokens.now))) }
{
    if fuel == 0 {
        return Ok(None);
    }
    let reader = Reader {
        alloc,
        fuel: fuel - 1,
        part: expression_within,
    };
    reader.expression_by(least, tokens)
}

/// An expression of at least a level that the tokens begin with, and the tokens behind it.
pub fn expression(
    alloc: Global,
    least: u8,
    tokens: &[Token],
) -> Result<Option<(Operand, &[Token])>, AllocError>
    ensures { IfOk result (λ found. Reads (λ x. (x.0, placed x.1.now)) found (expression least (placed tokens.now))) }
{
    expression_within(alloc, MOST_DEPTH, least, tokens)
}

/// A type that the tokens begin with, and the tokens behind it.
pub fn type_expr(
    alloc: Global,
    tokens: &[Token],
) -> Result<Option<(SizedType, &[Token])>, AllocError>
    ensures { IfOk result (λ found. Reads (λ x. (x.0, placed x.1.now)) found (type_expr (placed tokens.now))) }
{
    let reader = Reader {
        alloc,
        fuel: MOST_DEPTH,
        part: expression_within,
    };
    reader.type_at(tokens)
}
