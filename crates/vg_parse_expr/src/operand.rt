ghost use Rattle.std.specs.Prelude.{◌≡◌, IfOk};
ghost use Rattle.vg_ast.specs.Placed.{placed};
ghost use Rattle.vg_parse_expr.specs.Lexeme.{Reads};
ghost use Rattle.vg_parse_expr.specs.Reading.{leaf, over};

use crate::reader::Found;
use sqlite_items::Boxed;
use std::alloc::Global;
use vg_ast::{Expr, TypeExpr};
use vg_tok::Token;

pub(crate) const SUM_LEVEL: u8 = 7;

pub(crate) const CAST_LEVEL: u8 = 9;

pub(crate) const UNARY_LEVEL: u8 = 10;

pub(crate) const SLICE_LEVEL: u8 = 11;

pub(crate) const PRIMARY_LEVEL: u8 = 12;

/// The greatest depth of a tree.
pub(crate) const MOST_DEPTH: u8 = 64;

/// An expression that was read, with the level of its operator and its depth.
#[derive(Drop)]
pub struct Operand {
    pub tree: Boxed<Expr>,
    pub level: u8,
    pub depth: u8,
}

/// A type that was read, with its depth.
#[derive(Drop)]
pub struct SizedType {
    pub tree: TypeExpr<Boxed<Expr>>,
    pub depth: u8,
}

/// A tree without parts.
pub(crate) fn leaf(alloc: Global, tree: Expr, rest: &[Token]) -> Found<'_, Operand>
    ensures { IfOk result (λ found. Reads (λ x. (x.0, placed x.1.now)) found (leaf tree (placed rest.now))) }
{
    let operand = Operand {
        tree: Boxed::new(alloc, tree)?,
        level: PRIMARY_LEVEL,
        depth: 1,
    };
    Ok(Some((operand, rest)))
}

/// A tree of this level over parts of this depth, where it isn't too deep.
pub(crate) fn over(
    alloc: Global,
    tree: Expr,
    level: u8,
    parts: u8,
    rest: &[Token],
) -> Found<'_, Operand>
    ensures { IfOk result (λ found. Reads (λ x. (x.0, placed x.1.now)) found (over tree level parts (placed rest.now))) }
{
    if parts < MOST_DEPTH {
        let operand = Operand {
            tree: Boxed::new(alloc, tree)?,
            level,
            depth: 1 + parts,
        };
        return Ok(Some((operand, rest)));
    }
    Ok(None)
}
