//! Statements, of which no more than the fuel stand in one another.

ghost use Rattle.std.specs.Prelude.{◌≡◌, [], Some, None, IfOk, length, max};
ghost use Rattle.vg_ast.specs.Placed.{placed};
ghost use Rattle.vg_parse_expr.specs.Lexeme.{Reads};
ghost use Rattle.vg_parse_item.specs.ReadingStatement.{statement_over, assign_at, statements_at, block_at, local_at, otherwise_at, conditional_at, statement_by, statement_within, statement};

use crate::found::Found;
use crate::goal::goal_at;
use crate::sized::{MOST_DEPTH, SizedStatement};
use sqlite_items::{Boxed, Items};
use std::alloc::Global;
use vg_ast::{Name, Statement};
use vg_parse_expr::{
    Operand, begins_with, begins_with_word, expression, name_at, sign_at, word_at,
};
use vg_tok::{Sign, Token, Word};

fn deeper(one: u8, other: u8) -> u8
    ensures { result ≡ max one other }
{
    one.max(other)
}

/// A statement over parts of this depth, where it isn't too deep.
fn statement_over(
    alloc: Global,
    tree: Statement,
    parts: u8,
    rest: &[Token],
) -> Found<'_, SizedStatement>
    ensures { IfOk result (λ found. Reads (λ x. (x.0, placed x.1.now)) found (statement_over tree parts (placed rest.now))) }
{
    if parts < MOST_DEPTH {
        let statement = SizedStatement {
            tree: Boxed::new(alloc, tree)?,
            depth: 1 + parts,
        };
        return Ok(Some((statement, rest)));
    }
    Ok(None)
}

/// A goal, `:=` and its value.
#[tactic(auto, unfolding(crate::specs::ReadingStatement::assign_at))]
fn assign_at(alloc: Global, tokens: &[Token]) -> Found<'_, SizedStatement>
    ensures { IfOk result (λ found. Reads (λ x. (x.0, placed x.1.now)) found (assign_at (placed tokens.now))) }
{
    let Some((goal, rest)) = goal_at(alloc, tokens)? else {
        return Ok(None);
    };
    let Some((_, rest)) = sign_at(Sign::ColonEqual, rest) else {
        return Ok(None);
    };
    let Some((value, rest)) = expression(alloc, 0, rest)? else {
        return Ok(None);
    };
    let depth = deeper(goal.depth, value.depth);
    let tree = Statement::Assign {
        goal: goal.tree,
        value: value.tree,
    };
    let tree = Boxed::new(alloc, tree)?;
    Ok(Some((SizedStatement { tree, depth }, rest)))
}

/// A name that is bound in a statement.
fn local(
    alloc: Global,
    at: usize,
    name: Name,
    bound: Operand,
    body: SizedStatement,
    rest: &[Token],
) -> Found<'_, SizedStatement>
    ensures { IfOk result (λ found. Reads (λ x. (x.0, placed x.1.now)) found (statement_over (Statement.Let at name bound.tree body.tree) (max bound.depth body.depth) (placed rest.now))) }
{
    let depth = deeper(bound.depth, body.depth);
    let tree = Statement::Let {
        at,
        name,
        bound: bound.tree,
        body: body.tree,
    };
    statement_over(alloc, tree, depth, rest)
}

/// An `if` without an `else`.
fn only_branch(
    alloc: Global,
    at: usize,
    condition: Operand,
    body: SizedStatement,
    rest: &[Token],
) -> Found<'_, SizedStatement>
    ensures { IfOk result (λ found. Reads (λ x. (x.0, placed x.1.now)) found (statement_over (Statement.If at condition.tree body.tree None) (max condition.depth body.depth) (placed rest.now))) }
{
    let depth = deeper(condition.depth, body.depth);
    let tree = Statement::If {
        at,
        condition: condition.tree,
        then: body.tree,
        otherwise: None,
    };
    statement_over(alloc, tree, depth, rest)
}

/// An `if` with an `else`.
fn both_branches(
    alloc: Global,
    at: usize,
    condition: Operand,
    body: SizedStatement,
    other: SizedStatement,
    rest: &[Token],
) -> Found<'_, SizedStatement>
    ensures { IfOk result (λ found. Reads (λ x. (x.0, placed x.1.now)) found (statement_over (Statement.If at condition.tree body.tree (Some other.tree)) (max condition.depth (max body.depth other.depth)) (placed rest.now))) }
{
    let depth = deeper(condition.depth, deeper(body.depth, other.depth));
    let tree = Statement::If {
        at,
        condition: condition.tree,
        then: body.tree,
        otherwise: Some(other.tree),
    };
    statement_over(alloc, tree, depth, rest)
}

/// The statements of a block up to the `}` behind them, with the depth of the deepest.
#[cycle(statement)]
fn statements_at(alloc: Global, fuel: u8, tokens: &[Token]) -> Found<'_, (Items<Statement>, u8)>
    ensures { IfOk result (λ found. Reads (λ x. (x.0, placed x.1.now)) found (statements_at (length (placed tokens.now)) (statement_within fuel) [] 0 (placed tokens.now))) }
{
    let mut front = Items::new(alloc);
    let mut deepest = 0;
    let mut rest = tokens;
    let mut left = tokens.len();
    while left > 0 {
        if let Some((_, behind)) = sign_at(Sign::CloseBrace, rest) {
            return Ok(Some(((front, deepest), behind)));
        }
        let Some((statement, behind)) = statement_within(alloc, fuel, rest)? else {
            return Ok(None);
        };
        front.push(statement.tree.into_inner())?;
        deepest = deeper(deepest, statement.depth);
        rest = behind;
        left -= 1;
    }
    Ok(None)
}

/// Behind the `{` of a block.
#[cycle(statement)]
#[tactic(auto, unfolding(crate::specs::ReadingStatement::block_at))]
fn block_at(alloc: Global, fuel: u8, at: usize, tokens: &[Token]) -> Found<'_, SizedStatement>
    ensures { IfOk result (λ found. Reads (λ x. (x.0, placed x.1.now)) found (block_at (statement_within fuel) at (placed tokens.now))) }
{
    let Some(((statements, deepest), rest)) = statements_at(alloc, fuel, tokens)? else {
        return Ok(None);
    };
    let tree = Statement::Block { at, statements };
    statement_over(alloc, tree, deepest, rest)
}

/// Behind the word `let`.
#[cycle(statement)]
#[tactic(auto, unfolding(crate::specs::ReadingStatement::local_at))]
fn local_at(alloc: Global, fuel: u8, at: usize, tokens: &[Token]) -> Found<'_, SizedStatement>
    ensures { IfOk result (λ found. Reads (λ x. (x.0, placed x.1.now)) found (local_at (statement_within fuel) at (placed tokens.now))) }
{
    let Some((name, rest)) = name_at(alloc, tokens)? else {
        return Ok(None);
    };
    let Some((_, rest)) = sign_at(Sign::Equal, rest) else {
        return Ok(None);
    };
    let Some((bound, rest)) = expression(alloc, 0, rest)? else {
        return Ok(None);
    };
    let Some((_, rest)) = word_at(Word::In, rest) else {
        return Ok(None);
    };
    let Some((body, rest)) = statement_within(alloc, fuel, rest)? else {
        return Ok(None);
    };
    local(alloc, at, name, bound, body, rest)
}

/// Behind the first branch of an `if`: an `else` here is its own.
#[cycle(statement)]
#[tactic(auto, unfolding(crate::specs::ReadingStatement::otherwise_at))]
fn otherwise_at(
    alloc: Global,
    fuel: u8,
    at: usize,
    condition: Operand,
    body: SizedStatement,
    tokens: &[Token],
) -> Found<'_, SizedStatement>
    ensures { IfOk result (λ found. Reads (λ x. (x.0, placed x.1.now)) found (otherwise_at (statement_within fuel) at condition body (placed tokens.now))) }
{
    if !begins_with_word(Word::Else, tokens) {
        return only_branch(alloc, at, condition, body, tokens);
    }
    let Some((_, rest)) = word_at(Word::Else, tokens) else {
        return Ok(None);
    };
    let Some((other, rest)) = statement_within(alloc, fuel, rest)? else {
        return Ok(None);
    };
    both_branches(alloc, at, condition, body, other, rest)
}

/// Behind the word `if`.
#[cycle(statement)]
#[tactic(auto, unfolding(crate::specs::ReadingStatement::conditional_at))]
fn conditional_at(alloc: Global, fuel: u8, at: usize, tokens: &[Token]) -> Found<'_, SizedStatement>
    ensures { IfOk result (λ found. Reads (λ x. (x.0, placed x.1.now)) found (conditional_at (statement_within fuel) at (placed tokens.now))) }
{
    let Some((condition, rest)) = expression(alloc, 0, tokens)? else {
        return Ok(None);
    };
    let Some((_, rest)) = word_at(Word::Then, rest) else {
        return Ok(None);
    };
    let Some((body, rest)) = statement_within(alloc, fuel, rest)? else {
        return Ok(None);
    };
    otherwise_at(alloc, fuel, at, condition, body, rest)
}

/// A statement whose parts are read with so much fuel.
#[cycle(statement)]
#[tactic(auto, unfolding(crate::specs::ReadingStatement::statement_by))]
fn statement_by(alloc: Global, fuel: u8, tokens: &[Token]) -> Found<'_, SizedStatement>
    ensures { IfOk result (λ found. Reads (λ x. (x.0, placed x.1.now)) found (statement_by (statement_within fuel) (placed tokens.now))) }
{
    if begins_with(Sign::OpenBrace, tokens) {
        let Some((at, rest)) = sign_at(Sign::OpenBrace, tokens) else {
            return Ok(None);
        };
        return block_at(alloc, fuel, at, rest);
    }
    if begins_with_word(Word::Let, tokens) {
        let Some((at, rest)) = word_at(Word::Let, tokens) else {
            return Ok(None);
        };
        return local_at(alloc, fuel, at, rest);
    }
    if begins_with_word(Word::If, tokens) {
        let Some((at, rest)) = word_at(Word::If, tokens) else {
            return Ok(None);
        };
        return conditional_at(alloc, fuel, at, rest);
    }
    assign_at(alloc, tokens)
}

/// A statement in which no more readings than the fuel stand in one another.
#[cycle(statement)]
fn statement_within(alloc: Global, fuel: u8, tokens: &[Token]) -> Found<'_, SizedStatement>
    ensures { IfOk result (λ found. Reads (λ x. (x.0, placed x.1.now)) found (statement_within fuel (placed tokens.now))) }
{
    if fuel == 0 {
        return Ok(None);
    }
    statement_by(alloc, fuel - 1, tokens)
}

/// A statement that the tokens begin with, and the tokens behind it.
pub(crate) fn statement(alloc: Global, tokens: &[Token]) -> Found<'_, SizedStatement>
    ensures { IfOk result (λ found. Reads (λ x. (x.0, placed x.1.now)) found (statement (placed tokens.now))) }
{
    statement_within(alloc, MOST_DEPTH, tokens)
}
