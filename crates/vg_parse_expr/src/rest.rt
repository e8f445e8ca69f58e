//! What stands behind the first operand of an expression.

ghost use Rattle.std.specs.Prelude.{◌≡◌, IfOk};
ghost use Rattle.vg_ast.specs.Placed.{placed};
ghost use Rattle.vg_parse_expr.specs.Lexeme.{Reads};
ghost use Rattle.vg_parse_expr.specs.Parts.{ReadsWithin};
ghost use Rattle.vg_parse_expr.specs.Reading.{expression_within, binary_at, cast_at, slice_at, infix_by, rest_at, most_depth};

use crate::infix::{Infix, kind_infix, right_level, taken};
use crate::operand::{MOST_DEPTH, Operand};
use crate::reader::{Found, Reader};
use crate::trees;
use std::alloc::Global;
use vg_ast::BinaryOperator;
use vg_tok::{Sign, Token};

impl<F: Fn(Global, u8, u8, &[Token]) -> Found<'_, Operand>> Reader<F> {
    /// Behind an operator between operands.
    #[tactic(auto, unfolding(crate::specs::Reading::binary_at))]
    fn binary_at<'a>(
        &self,
        left: Operand,
        operator: BinaryOperator,
        at: usize,
        tokens: &'a [Token],
    ) -> Found<'a, Operand>
        requires { ReadsWithin self.now.fuel (F.pre self.now.part) (F.post self.now.part) }
        ensures { IfOk result (λ found. Reads (λ x. (x.0, placed x.1.now)) found (binary_at (expression_within self.now.fuel) left operator at (placed tokens.now))) }
    {
        let Some((right, rest)) = self.part(right_level(operator), tokens)? else {
            return Ok(None);
        };
        trees::binary(self.alloc, left, operator, at, right, rest)
    }

    /// Behind the word `as`.
    #[tactic(auto, unfolding(crate::specs::Reading::cast_at))]
    fn cast_at<'a>(&self, left: Operand, at: usize, tokens: &'a [Token]) -> Found<'a, Operand>
        requires { ReadsWithin self.now.fuel (F.pre self.now.part) (F.post self.now.part) }
        ensures { IfOk result (λ found. Reads (λ x. (x.0, placed x.1.now)) found (cast_at (expression_within self.now.fuel) left at (placed tokens.now))) }
    {
        let Some((target, rest)) = self.type_at(tokens)? else {
            return Ok(None);
        };
        trees::cast(self.alloc, left, at, target, rest)
    }

    /// Behind the `[` of a slice.
    #[tactic(auto, using(crate::proofs::Steps::slice_steps))]
    fn slice_at<'a>(&self, left: Operand, at: usize, tokens: &'a [Token]) -> Found<'a, Operand>
        requires { ReadsWithin self.now.fuel (F.pre self.now.part) (F.post self.now.part) }
        ensures { IfOk result (λ found. Reads (λ x. (x.0, placed x.1.now)) found (slice_at (expression_within self.now.fuel) left at (placed tokens.now))) }
    {
        let Some((high, rest)) = self.part_then_sign(0, Sign::DotDot, tokens)? else {
            return Ok(None);
        };
        let Some((low, rest)) = self.part_then_sign(0, Sign::CloseBracket, rest)? else {
            return Ok(None);
        };
        trees::slice(self.alloc, left, at, high, low, rest)
    }

    /// Behind the sign or the word that the operand at the left goes on with.
    fn infix_by<'a>(
        &self,
        left: Operand,
        next: Infix,
        at: usize,
        tokens: &'a [Token],
    ) -> Found<'a, Operand>
        requires { ReadsWithin self.now.fuel (F.pre self.now.part) (F.post self.now.part) }
        ensures { IfOk result (λ found. Reads (λ x. (x.0, placed x.1.now)) found (infix_by (expression_within self.now.fuel) left next at (placed tokens.now))) }
    {
        match next {
            Infix::Operator(operator) => self.binary_at(left, operator, at, tokens),
            Infix::Cast => self.cast_at(left, at, tokens),
            Infix::Slice => self.slice_at(left, at, tokens),
        }
    }

    /// The expression of at least a level that goes on from the operand at the left.
    #[tactic(auto, unfolding(crate::specs::Reading::rest_at))]
    pub(crate) fn rest_at<'a>(
        &self,
        least: u8,
        left: Operand,
        tokens: &'a [Token],
    ) -> Found<'a, Operand>
        requires { ReadsWithin self.now.fuel (F.pre self.now.part) (F.post self.now.part) }
        ensures { IfOk result (λ found. Reads (λ x. (x.0, placed x.1.now)) found (rest_at most_depth (expression_within self.now.fuel) least left (placed tokens.now))) }
    {
        let mut left = left;
        let mut rest = tokens;
        for _step in 0..MOST_DEPTH {
            let Some((first, others)) = rest.split_first() else {
                return Ok(Some((left, rest)));
            };
            let Some(next) = taken(least, left.level, kind_infix(&first.kind)) else {
                return Ok(Some((left, rest)));
            };
            let Some((whole, behind)) = self.infix_by(left, next, first.start, others)? else {
                return Ok(None);
            };
            left = whole;
            rest = behind;
        }
        Ok(Some((left, rest)))
    }
}
