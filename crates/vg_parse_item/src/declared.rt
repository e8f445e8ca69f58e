//! Types that items declare.

ghost use Rattle.std.specs.Prelude.{◌≡◌, IfOk};
ghost use Rattle.vg_ast.specs.Placed.{placed};
ghost use Rattle.vg_parse_expr.specs.Lexeme.{Reads};
ghost use Rattle.vg_parse_item.specs.ReadingItem.{parameter_at};

use crate::found::Found;
use crate::row::Element;
use std::alloc::Global;
use vg_ast::Parameter;
use vg_parse_expr::{name_at, sign_at, type_expr};
use vg_tok::{Sign, Token};

impl Element for Parameter {
    ghost reader = { parameter_at };

    #[tactic(auto, unfolding(crate::specs::ReadingItem::parameter_at))]
    fn read(alloc: Global, tokens: &[Token]) -> Found<'_, Parameter> {
        let Some((name, rest)) = name_at(alloc, tokens)? else {
            return Ok(None);
        };
        let Some((_, rest)) = sign_at(Sign::Colon, rest) else {
            return Ok(None);
        };
        let Some((declared, rest)) = type_expr(alloc, rest)? else {
            return Ok(None);
        };
        let declared = declared.tree;
        Ok(Some((Parameter { name, declared }, rest)))
    }
}
