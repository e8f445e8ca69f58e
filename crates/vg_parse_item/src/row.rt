//! Rows: one or more of a kind, with commas between them.

ghost use Rattle.std.specs.Prelude.{◌≡◌, IfOk};
ghost use Rattle.vg_tok.specs.declared.sign.Sign.{Sign};
ghost use Rattle.vg_ast.specs.Placed.{placed};
ghost use Rattle.vg_parse_expr.specs.Lexeme.{Reads};
ghost use Rattle.vg_parse_item.specs.ReadingRow.{Reader, row_at, optional_row_at};

use crate::found::Found;
use sqlite_items::Items;
use std::alloc::Global;
use vg_parse_expr::{begins_with, sign_at};
use vg_tok::{Sign, Token};

/// What may stand in a row.
pub(crate) trait Element: Drop {
    ghost reader: { Reader Self };

    /// One that the tokens begin with, and the tokens behind it.
    fn read(alloc: Global, tokens: &[Token]) -> Found<'_, Self>
        ensures { IfOk result (λ found. Reads (λ x. (x.0, placed x.1.now)) found (reader (placed tokens.now))) };
}

/// A row that the tokens begin with, and the tokens behind it.

pub(crate) fn row_at<T: Element>(alloc: Global, tokens: &[Token]) -> Found<'_, Items<T>>
    ensures { IfOk result (λ found. Reads (λ x. (x.0, placed x.1.now)) found (row_at T.reader (placed tokens.now))) }
{
    let mut front = Items::new(alloc);
    let mut rest = tokens;
    let mut fuel = tokens.len();
    while fuel > 0 {
        let Some((element, others)) = T::read(alloc, rest)? else {
            return Ok(None);
        };
        front.push(element)?;
        let Some((_, behind)) = sign_at(Sign::Comma, others) else {
            return Ok(Some((front, others)));
        };
        rest = behind;
        fuel -= 1;
    }
    Ok(None)
}

/// A row, or nothing where the sign that closes it is next.
#[tactic(auto, unfolding(crate::specs::ReadingRow::optional_row_at))]
pub(crate) fn optional_row_at<T: Element>(
    alloc: Global,
    closing: Sign,
    tokens: &[Token],
) -> Found<'_, Items<T>>
    ensures { IfOk result (λ found. Reads (λ x. (x.0, placed x.1.now)) found (optional_row_at closing T.reader (placed tokens.now))) }
{
    if begins_with(closing, tokens) {
        Ok(Some((Items::new(alloc), tokens)))
    } else {
        row_at(alloc, tokens)
    }
}
