ghost use Rattle.vg_parse_item.specs.ReadingItem.{range_at, field_at};
ghost use Rattle.std.specs.Prelude.{◌≡◌, IfOk};
ghost use Rattle.vg_ast.specs.Placed.{placed};
ghost use Rattle.vg_parse_expr.specs.Lexeme.{Reads};

use crate::found::Found;
use crate::row::{Element, row_at};
use std::alloc::Global;
use vg_ast::{Field, Range};
use vg_parse_expr::{begins_with, expression, name_at, sign_at};
use vg_tok::{Sign, Token};

impl Element for Range {
    ghost reader = { range_at };

    #[tactic(auto, unfolding(crate::specs::ReadingItem::range_at))]
    fn read(alloc: Global, tokens: &[Token]) -> Found<'_, Range> {
        let Some((high, rest)) = expression(alloc, 0, tokens)? else {
            return Ok(None);
        };
        let high = high.tree;
        if !begins_with(Sign::DotDot, rest) {
            return Ok(Some((Range { high, low: None }, rest)));
        }
        let Some((_, rest)) = sign_at(Sign::DotDot, rest) else {
            return Ok(None);
        };
        let Some((low, rest)) = expression(alloc, 0, rest)? else {
            return Ok(None);
        };
        let low = Some(low.tree);
        Ok(Some((Range { high, low }, rest)))
    }
}

impl Element for Field {
    ghost reader = { field_at };

    #[tactic(auto, unfolding(crate::specs::ReadingItem::field_at))]
    fn read(alloc: Global, tokens: &[Token]) -> Found<'_, Field> {
        let Some((name, rest)) = name_at(alloc, tokens)? else {
            return Ok(None);
        };
        let Some((_, rest)) = sign_at(Sign::OpenBracket, rest) else {
            return Ok(None);
        };
        let Some((ranges, rest)) = row_at(alloc, rest)? else {
            return Ok(None);
        };
        let Some((_, rest)) = sign_at(Sign::CloseBracket, rest) else {
            return Ok(None);
        };
        Ok(Some((Field { name, ranges }, rest)))
    }
}
