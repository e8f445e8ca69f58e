ghost use Rattle.std.specs.Prelude.{◌≡◌, IfOk};
ghost use Rattle.vg_ast.specs.Placed.{placed};
ghost use Rattle.vg_parse_expr.specs.Lexeme.{Reads};
ghost use Rattle.vg_parse_expr.specs.Parts.{ReadsWithin};
ghost use Rattle.vg_parse_expr.specs.Reading.{expression_within, bits_kind, unsized_of, sized_at, type_at};

use crate::lexeme::sign_at;
use crate::operand::{Operand, SUM_LEVEL, SizedType};
use crate::reader::{Found, Reader};
use sqlite_items::Items;
use std::alloc::Global;
use vg_ast::{BitsKind, Name, TypeExpr};
use vg_tok::{Kind, Sign, Token, Word};

fn bits_kind(kind: &Kind) -> Option<BitsKind>
    ensures { result ≡ bits_kind kind.now }
{
    match kind {
        Kind::Word(Word::Bits) => Some(BitsKind::Bits),
        Kind::Word(Word::UInt) => Some(BitsKind::UInt),
        Kind::Word(Word::SInt) => Some(BitsKind::SInt),
        _ => None,
    }
}

/// A type of one token.
fn unsized_of<'a>(
    alloc: Global,
    kind: &Kind,
    at: usize,
    tokens: &'a [Token],
) -> Found<'a, SizedType>
    ensures { IfOk result (λ found. Reads (λ x. (x.0, placed x.1.now)) found (unsized_of kind.now at (placed tokens.now))) }
{
    match kind {
        Kind::Word(Word::Bool) => {
            let tree = TypeExpr::Bool { at };
            Ok(Some((SizedType { tree, depth: 1 }, tokens)))
        }
        Kind::Name(text) => {
            let text = Items::from_slice(alloc, text.as_slice())?;
            let tree = TypeExpr::Alias(Name { text, at });
            Ok(Some((SizedType { tree, depth: 1 }, tokens)))
        }
        _ => Ok(None),
    }
}

impl<F: Fn(Global, u8, u8, &[Token]) -> Found<'_, Operand>> Reader<F> {
    /// Behind the word that a type with a width begins with.
    #[tactic(auto, unfolding(crate::specs::Reading::sized_at))]
    fn sized_at<'a>(&self, kind: BitsKind, at: usize, tokens: &'a [Token]) -> Found<'a, SizedType>
        requires { ReadsWithin self.now.fuel (F.pre self.now.part) (F.post self.now.part) }
        ensures { IfOk result (λ found. Reads (λ x. (x.0, placed x.1.now)) found (sized_at (expression_within self.now.fuel) kind at (placed tokens.now))) }
    {
        let Some((_, rest)) = sign_at(Sign::Less, tokens) else {
            return Ok(None);
        };
        let Some((width, rest)) = self.part(SUM_LEVEL, rest)? else {
            return Ok(None);
        };
        let Some((_, rest)) = sign_at(Sign::Greater, rest) else {
            return Ok(None);
        };
        let depth = width.depth;
        let width = width.tree;
        let tree = TypeExpr::Sized { kind, at, width };
        Ok(Some((SizedType { tree, depth }, rest)))
    }

    /// A type that the tokens begin with.
    #[tactic(auto, unfolding(crate::specs::Reading::type_at))]
    pub(crate) fn type_at<'a>(&self, tokens: &'a [Token]) -> Found<'a, SizedType>
        requires { ReadsWithin self.now.fuel (F.pre self.now.part) (F.post self.now.part) }
        ensures { IfOk result (λ found. Reads (λ x. (x.0, placed x.1.now)) found (type_at (expression_within self.now.fuel) (placed tokens.now))) }
    {
        let Some((first, rest)) = tokens.split_first() else {
            return Ok(None);
        };
        match bits_kind(&first.kind) {
            Some(kind) => self.sized_at(kind, first.start, rest),
            None => unsized_of(self.alloc, &first.kind, first.start, rest),
        }
    }
}
