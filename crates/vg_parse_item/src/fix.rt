ghost use Rattle.std.specs.Prelude.{◌≡◌, IfOk};
ghost use Rattle.vg_ast.specs.Placed.{placed};
ghost use Rattle.vg_parse_expr.specs.Lexeme.{Reads};
ghost use Rattle.vg_parse_item.specs.ReadingItem.{fix_at};

use crate::found::Found;
use crate::row::Element;
use std::alloc::Global;
use vg_ast::Fix;
use vg_parse_expr::{expression, name_at, sign_at};
use vg_tok::{Sign, Token};

impl Element for Fix {
    ghost reader = { fix_at };

    #[tactic(auto, unfolding(crate::specs::ReadingItem::fix_at))]
    fn read(alloc: Global, tokens: &[Token]) -> Found<'_, Fix> {
        let Some((name, rest)) = name_at(alloc, tokens)? else {
            return Ok(None);
        };
        let Some((_, rest)) = sign_at(Sign::Equal, rest) else {
            return Ok(None);
        };
        let Some((value, rest)) = expression(alloc, 0, rest)? else {
            return Ok(None);
        };
        let value = value.tree;
        Ok(Some((Fix { name, value }, rest)))
    }
}
