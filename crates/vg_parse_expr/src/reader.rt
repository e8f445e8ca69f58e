//! The rules for what stands in one another take the reader of expressions as a parameter, so that each is proved by
//! itself.

ghost use Rattle.std.specs.Prelude.{◌≡◌, IfOk};
ghost use Rattle.vg_ast.specs.Placed.{placed};
ghost use Rattle.vg_parse_expr.specs.Lexeme.{Reads};
ghost use Rattle.vg_parse_expr.specs.Parts.{ReadsWithin, part_then_sign, part_then_word};
ghost use Rattle.vg_parse_expr.specs.Reading.{expression_within};

use crate::lexeme::{sign_at, word_at};
use crate::operand::Operand;
use std::alloc::{AllocError, Global};
use vg_tok::{Sign, Token, Word};

/// What the tokens begin with and the tokens behind it, or None where they don't begin so.
pub(crate) type Found<'a, T> = Result<Option<(T, &'a [Token])>, AllocError>;

#[derive(Clone, Copy)]
pub(crate) struct Reader<F> {
    pub(crate) alloc: Global,
    /// How many readings may still stand in one another.
    pub(crate) fuel: u8,
    /// Reads an expression of at least a level, with so much fuel.
    pub(crate) part: F,
}

impl<F: Fn(Global, u8, u8, &[Token]) -> Found<'_, Operand>> Reader<F> {
    /// An expression of at least a level that the tokens begin with.
    pub(crate) fn part<'a>(&self, least: u8, tokens: &'a [Token]) -> Found<'a, Operand>
        requires { ReadsWithin self.now.fuel (F.pre self.now.part) (F.post self.now.part) }
        ensures { IfOk result (λ found. Reads (λ x. (x.0, placed x.1.now)) found (expression_within self.now.fuel least (placed tokens.now))) }
    {
        (self.part)(self.alloc, self.fuel, least, tokens)
    }

    /// An expression of at least a level, and a sign behind it.
    #[tactic(auto, unfolding(crate::specs::Parts::part_then_sign))]
    pub(crate) fn part_then_sign<'a>(
        &self,
        least: u8,
        sign: Sign,
        tokens: &'a [Token],
    ) -> Found<'a, Operand>
        requires { ReadsWithin self.now.fuel (F.pre self.now.part) (F.post self.now.part) }
        ensures { IfOk result (λ found. Reads (λ x. (x.0, placed x.1.now)) found (part_then_sign (expression_within self.now.fuel) least sign (placed tokens.now))) }
    {
        let Some((part, rest)) = self.part(least, tokens)? else {
            return Ok(None);
        };
        let Some((_, rest)) = sign_at(sign, rest) else {
            return Ok(None);
        };
        Ok(Some((part, rest)))
    }

    /// An expression, and a reserved word behind it.
    #[tactic(auto, unfolding(crate::specs::Parts::part_then_word))]
    pub(crate) fn part_then_word<'a>(&self, word: Word, tokens: &'a [Token]) -> Found<'a, Operand>
        requires { ReadsWithin self.now.fuel (F.pre self.now.part) (F.post self.now.part) }
        ensures { IfOk result (λ found. Reads (λ x. (x.0, placed x.1.now)) found (part_then_word (expression_within self.now.fuel) word (placed tokens.now))) }
    {
        let Some((part, rest)) = self.part(0, tokens)? else {
            return Ok(None);
        };
        let Some((_, rest)) = word_at(word, rest) else {
            return Ok(None);
        };
        Ok(Some((part, rest)))
    }
}
