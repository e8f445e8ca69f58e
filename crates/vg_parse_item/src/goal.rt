//! What a statement writes.

ghost use Rattle.std.specs.Prelude.{◌≡◌, IfOk, max};
ghost use Rattle.vg_ast.specs.Placed.{placed};
ghost use Rattle.vg_parse_expr.specs.Lexeme.{Reads};
ghost use Rattle.vg_parse_item.specs.ReadingBehind.{address_behind};
ghost use Rattle.vg_parse_item.specs.ReadingStatement.{goal_over, indexed_at, cells_at, goal_behind, goal_at};

use crate::found::Found;
use crate::sized::{MOST_DEPTH, SizedGoal};
use std::alloc::Global;
use vg_ast::{Goal, Name};
use vg_parse_expr::{Operand, begins_with, expression, name_at, sign_at};
use vg_tok::{Sign, Token};

/// The level of sums.
const SUM_LEVEL: u8 = 7;

/// A goal over parts of this depth, where it isn't too deep.
fn goal_over(tree: Goal, parts: u8, rest: &[Token]) -> Option<(SizedGoal, &[Token])>
    ensures { Reads (λ x. (x.0, placed x.1.now)) result (goal_over tree parts (placed rest.now)) }
{
    if parts < MOST_DEPTH {
        let depth = 1 + parts;
        Some((SizedGoal { tree, depth }, rest))
    } else {
        None
    }
}

/// Behind the `(` of a register of a register file.
#[tactic(auto, unfolding(crate::specs::ReadingStatement::indexed_at))]
fn indexed_at(alloc: Global, name: Name, tokens: &[Token]) -> Found<'_, SizedGoal>
    ensures { IfOk result (λ found. Reads (λ x. (x.0, placed x.1.now)) found (indexed_at name (placed tokens.now))) }
{
    let Some((index, rest)) = expression(alloc, 0, tokens)? else {
        return Ok(None);
    };
    let Some((_, rest)) = sign_at(Sign::CloseParenthesis, rest) else {
        return Ok(None);
    };
    let depth = index.depth;
    let index = index.tree;
    Ok(goal_over(Goal::Indexed { name, index }, depth, rest))
}

/// Bytes of memory over their parts.
fn access(
    memory: Name,
    less: usize,
    size: Operand,
    address: Operand,
    rest: &[Token],
) -> Option<(SizedGoal, &[Token])>
    ensures { Reads (λ x. (x.0, placed x.1.now)) result (goal_over (Goal.Access memory less size.tree address.tree) (max size.depth address.depth) (placed rest.now)) }
{
    let depth = size.depth.max(address.depth);
    let tree = Goal::Access {
        memory,
        at: less,
        size: size.tree,
        address: address.tree,
    };
    goal_over(tree, depth, rest)
}

/// Bytes of memory, behind the `(` of their address.
#[tactic(auto, unfolding(crate::specs::ReadingBehind::address_behind))]
fn address_behind(
    alloc: Global,
    memory: Name,
    less: usize,
    size: Operand,
    tokens: &[Token],
) -> Found<'_, SizedGoal>
    ensures { IfOk result (λ found. Reads (λ x. (x.0, placed x.1.now)) found (address_behind memory less size (placed tokens.now))) }
{
    let Some((address, rest)) = expression(alloc, 0, tokens)? else {
        return Ok(None);
    };
    let Some((_, rest)) = sign_at(Sign::CloseParenthesis, rest) else {
        return Ok(None);
    };
    Ok(access(memory, less, size, address, rest))
}

/// Behind the `<` of bytes of memory.
#[tactic(auto, unfolding(crate::specs::ReadingStatement::cells_at, crate::specs::ReadingBehind::address_behind))]
fn cells_at(alloc: Global, memory: Name, less: usize, tokens: &[Token]) -> Found<'_, SizedGoal>
    ensures { IfOk result (λ found. Reads (λ x. (x.0, placed x.1.now)) found (cells_at memory less (placed tokens.now))) }
{
    let Some((size, rest)) = expression(alloc, SUM_LEVEL, tokens)? else {
        return Ok(None);
    };
    let Some((_, rest)) = sign_at(Sign::Greater, rest) else {
        return Ok(None);
    };
    let Some((_, rest)) = sign_at(Sign::OpenParenthesis, rest) else {
        return Ok(None);
    };
    address_behind(alloc, memory, less, size, rest)
}

/// Behind the name of a goal.
#[tactic(auto, unfolding(crate::specs::ReadingStatement::goal_behind))]
fn goal_behind(alloc: Global, name: Name, tokens: &[Token]) -> Found<'_, SizedGoal>
    ensures { IfOk result (λ found. Reads (λ x. (x.0, placed x.1.now)) found (goal_behind name (placed tokens.now))) }
{
    if begins_with(Sign::OpenParenthesis, tokens) {
        let Some((_, rest)) = sign_at(Sign::OpenParenthesis, tokens) else {
            return Ok(None);
        };
        return indexed_at(alloc, name, rest);
    }
    if begins_with(Sign::Less, tokens) {
        let Some((less, rest)) = sign_at(Sign::Less, tokens) else {
            return Ok(None);
        };
        return cells_at(alloc, name, less, rest);
    }
    let tree = Goal::Name(name);
    Ok(Some((SizedGoal { tree, depth: 1 }, tokens)))
}

/// A goal that the tokens begin with, and the tokens behind it.
#[tactic(auto, unfolding(crate::specs::ReadingStatement::goal_at))]
pub(crate) fn goal_at(alloc: Global, tokens: &[Token]) -> Found<'_, SizedGoal>
    ensures { IfOk result (λ found. Reads (λ x. (x.0, placed x.1.now)) found (goal_at (placed tokens.now))) }
{
    let Some((name, rest)) = name_at(alloc, tokens)? else {
        return Ok(None);
    };
    goal_behind(alloc, name, rest)
}
