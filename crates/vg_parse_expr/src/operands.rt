//! What an expression begins with.

ghost use Rattle.std.specs.Prelude.{◌≡◌, ◌&&◌, [], IfOk, length};
ghost use Rattle.vg_ast.specs.Placed.{placed};
ghost use Rattle.vg_parse_expr.specs.Lexeme.{Reads, is_sign_kind};
ghost use Rattle.vg_parse_expr.specs.Lookahead.{is_access};
ghost use Rattle.vg_parse_expr.specs.Parts.{ReadsWithin};
ghost use Rattle.vg_parse_expr.specs.Reading.{expression_within, arguments_at, call_at, access_at, named_at, join_at, parentheses_at, unary_at, unary_operator, signed_by, operand_by, operand_at};

use crate::lexeme::{begins_with, is_sign_kind, sign_at};
use crate::lookahead::is_access;
use crate::operand::{Operand, PRIMARY_LEVEL, SUM_LEVEL, UNARY_LEVEL, leaf, over};
use crate::reader::{Found, Reader};
use crate::trees;
use sqlite_items::Items;
use std::alloc::Global;
use vg_ast::{Expr, Name, UnaryOperator};
use vg_tok::{Kind, Sign, Token, Word};

fn unary_operator(sign: Sign) -> Option<UnaryOperator>
    ensures { result ≡ unary_operator sign }
{
    match sign {
        Sign::Tilde => Some(UnaryOperator::Complement),
        Sign::Minus => Some(UnaryOperator::Negate),
        Sign::Bang => Some(UnaryOperator::Not),
        _ => None,
    }
}

/// Whether a token behind a name begins the size of an access.
fn begins_access(kind: &Kind, rest: &[Token]) -> bool
    ensures { result ≡ (is_sign_kind Sign.Less kind.now && is_access (placed rest.now)) }
{
    is_sign_kind(Sign::Less, kind) && is_access(rest)
}

impl<F: Fn(Global, u8, u8, &[Token]) -> Found<'_, Operand>> Reader<F> {
    /// The arguments of a call from the first on, with the depth of the deepest, up to the `)` behind them.
    #[tactic(auto, unfolding(crate::specs::Reading::arguments_at))]
    fn arguments_at<'a>(&self, tokens: &'a [Token]) -> Found<'a, (Items<Expr>, u8)>
        requires { ReadsWithin self.now.fuel (F.pre self.now.part) (F.post self.now.part) }
        ensures { IfOk result (λ found. Reads (λ x. (x.0, placed x.1.now)) found (arguments_at (length tokens.now) (expression_within self.now.fuel) [] 0 (placed tokens.now))) }
    {
        let mut front = Items::new(self.alloc);
        let mut deepest = 0;
        let mut rest = tokens;
        for _step in 0..tokens.len() {
            let Some((argument, others)) = self.part(0, rest)? else {
                return Ok(None);
            };
            front.push(argument.tree.into_inner())?;
            deepest = deepest.max(argument.depth);
            if begins_with(Sign::CloseParenthesis, others) {
                let Some((_, behind)) = sign_at(Sign::CloseParenthesis, others) else {
                    return Ok(None);
                };
                return Ok(Some(((front, deepest), behind)));
            }
            let Some((_, behind)) = sign_at(Sign::Comma, others) else {
                return Ok(None);
            };
            rest = behind;
        }
        Ok(None)
    }

    /// Behind the `(` of a call.
    #[tactic(auto, unfolding(crate::specs::Reading::call_at))]
    fn call_at<'a>(&self, name: Name, tokens: &'a [Token]) -> Found<'a, Operand>
        requires { ReadsWithin self.now.fuel (F.pre self.now.part) (F.post self.now.part) }
        ensures { IfOk result (λ found. Reads (λ x. (x.0, placed x.1.now)) found (call_at (expression_within self.now.fuel) name (placed tokens.now))) }
    {
        if begins_with(Sign::CloseParenthesis, tokens) {
            let Some((_, rest)) = sign_at(Sign::CloseParenthesis, tokens) else {
                return Ok(None);
            };
            let arguments = Items::new(self.alloc);
            let tree = Expr::Call { name, arguments };
            return over(self.alloc, tree, PRIMARY_LEVEL, 0, rest);
        }
        let Some(((arguments, deepest), rest)) = self.arguments_at(tokens)? else {
            return Ok(None);
        };
        let tree = Expr::Call { name, arguments };
        over(self.alloc, tree, PRIMARY_LEVEL, deepest, rest)
    }

    /// Behind the `<` of an access.
    #[tactic(auto, using(crate::proofs::Steps::access_steps))]
    fn access_at<'a>(&self, memory: Name, less: usize, tokens: &'a [Token]) -> Found<'a, Operand>
        requires { ReadsWithin self.now.fuel (F.pre self.now.part) (F.post self.now.part) }
        ensures { IfOk result (λ found. Reads (λ x. (x.0, placed x.1.now)) found (access_at (expression_within self.now.fuel) memory less (placed tokens.now))) }
    {
        let Some((size, rest)) = self.part_then_sign(SUM_LEVEL, Sign::Greater, tokens)? else {
            return Ok(None);
        };
        let Some((_, rest)) = sign_at(Sign::OpenParenthesis, rest) else {
            return Ok(None);
        };
        let Some((address, rest)) = self.part_then_sign(0, Sign::CloseParenthesis, rest)? else {
            return Ok(None);
        };
        trees::access(self.alloc, memory, less, size, address, rest)
    }

    /// Behind a name.
    #[tactic(auto, unfolding(crate::specs::Reading::named_at))]
    fn named_at<'a>(&self, name: Name, tokens: &'a [Token]) -> Found<'a, Operand>
        requires { ReadsWithin self.now.fuel (F.pre self.now.part) (F.post self.now.part) }
        ensures { IfOk result (λ found. Reads (λ x. (x.0, placed x.1.now)) found (named_at (expression_within self.now.fuel) name (placed tokens.now))) }
    {
        let Some((first, rest)) = tokens.split_first() else {
            return leaf(self.alloc, Expr::Name(name), tokens);
        };
        if is_sign_kind(Sign::OpenParenthesis, &first.kind) {
            return self.call_at(name, rest);
        }
        if begins_access(&first.kind, rest) {
            return self.access_at(name, first.start, rest);
        }
        leaf(self.alloc, Expr::Name(name), tokens)
    }

    /// Behind the word `join`.
    #[tactic(auto, using(crate::proofs::Steps::join_steps))]
    fn join_at<'a>(&self, at: usize, tokens: &'a [Token]) -> Found<'a, Operand>
        requires { ReadsWithin self.now.fuel (F.pre self.now.part) (F.post self.now.part) }
        ensures { IfOk result (λ found. Reads (λ x. (x.0, placed x.1.now)) found (join_at (expression_within self.now.fuel) at (placed tokens.now))) }
    {
        let Some((_, rest)) = sign_at(Sign::OpenParenthesis, tokens) else {
            return Ok(None);
        };
        let Some((high, rest)) = self.part_then_sign(0, Sign::Comma, rest)? else {
            return Ok(None);
        };
        let Some((low, rest)) = self.part_then_sign(0, Sign::CloseParenthesis, rest)? else {
            return Ok(None);
        };
        trees::join(self.alloc, at, high, low, rest)
    }

    /// Behind a `(`.
    #[tactic(auto, unfolding(crate::specs::Reading::parentheses_at))]
    fn parentheses_at<'a>(&self, at: usize, tokens: &'a [Token]) -> Found<'a, Operand>
        requires { ReadsWithin self.now.fuel (F.pre self.now.part) (F.post self.now.part) }
        ensures { IfOk result (λ found. Reads (λ x. (x.0, placed x.1.now)) found (parentheses_at (expression_within self.now.fuel) at (placed tokens.now))) }
    {
        let Some((inner, rest)) = self.part(0, tokens)? else {
            return Ok(None);
        };
        let Some((_, rest)) = sign_at(Sign::CloseParenthesis, rest) else {
            return Ok(None);
        };
        trees::parentheses(self.alloc, at, inner, rest)
    }

    /// Behind an operator that stands before its operand.
    #[tactic(auto, unfolding(crate::specs::Reading::unary_at))]
    fn unary_at<'a>(
        &self,
        operator: UnaryOperator,
        at: usize,
        tokens: &'a [Token],
    ) -> Found<'a, Operand>
        requires { ReadsWithin self.now.fuel (F.pre self.now.part) (F.post self.now.part) }
        ensures { IfOk result (λ found. Reads (λ x. (x.0, placed x.1.now)) found (unary_at (expression_within self.now.fuel) operator at (placed tokens.now))) }
    {
        let Some((operand, rest)) = self.part(UNARY_LEVEL, tokens)? else {
            return Ok(None);
        };
        trees::unary(self.alloc, operator, at, operand, rest)
    }

    /// Behind a sign.
    fn signed_by<'a>(&self, sign: Sign, at: usize, tokens: &'a [Token]) -> Found<'a, Operand>
        requires { ReadsWithin self.now.fuel (F.pre self.now.part) (F.post self.now.part) }
        ensures { IfOk result (λ found. Reads (λ x. (x.0, placed x.1.now)) found (signed_by (expression_within self.now.fuel) sign at (placed tokens.now))) }
    {
        if sign == Sign::OpenParenthesis {
            return self.parentheses_at(at, tokens);
        }
        match unary_operator(sign) {
            Some(operator) => self.unary_at(operator, at, tokens),
            None => Ok(None),
        }
    }

    /// Behind a reserved word.
    fn worded_by<'a>(&self, word: Word, at: usize, tokens: &'a [Token]) -> Found<'a, Operand>
        requires { ReadsWithin self.now.fuel (F.pre self.now.part) (F.post self.now.part) }
        ensures { IfOk result (λ found. Reads (λ x. (x.0, placed x.1.now)) found (operand_by (expression_within self.now.fuel) (Kind.Word word) at (placed tokens.now))) }
    {
        match word {
            Word::Join => self.join_at(at, tokens),
            _ => Ok(None),
        }
    }

    /// What stands at the left of the first operator between operands, cast or slice.
    #[tactic(auto, unfolding(crate::specs::Reading::operand_at))]
    pub(crate) fn operand_at<'a>(&self, tokens: &'a [Token]) -> Found<'a, Operand>
        requires { ReadsWithin self.now.fuel (F.pre self.now.part) (F.post self.now.part) }
        ensures { IfOk result (λ found. Reads (λ x. (x.0, placed x.1.now)) found (operand_at (expression_within self.now.fuel) (placed tokens.now))) }
    {
        let Some((first, rest)) = tokens.split_first() else {
            return Ok(None);
        };
        let at = first.start;
        match &first.kind {
            Kind::Number(value) => leaf(self.alloc, Expr::Number { value: *value, at }, rest),
            Kind::Name(text) => {
                let text = Items::from_slice(self.alloc, text.as_slice())?;
                self.named_at(Name { text, at }, rest)
            }
            Kind::Sign(sign) => self.signed_by(*sign, at, rest),
            Kind::Word(word) => self.worded_by(*word, at, rest),
            Kind::Str(_) => Ok(None),
        }
    }
}
