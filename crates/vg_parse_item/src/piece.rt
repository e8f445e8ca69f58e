ghost use Rattle.std.specs.Prelude.{◌≡◌, IfOk, List, Option};
ghost use Rattle.vg_ast.specs.Placed.{Placed, placed};
ghost use Rattle.vg_parse_expr.specs.Lexeme.{Reads};
ghost use Rattle.vg_parse_item.specs.Reading.{whole_of, item_piece, role_piece, micro_item_piece, isa_heading_piece, abi_heading_piece, micro_heading_piece, closing_piece};

use crate::Heading;
use crate::heading::{abi_heading_at, isa_heading_at, micro_heading_at};
use crate::items::item_at;
use crate::micro_items::micro_item_at;
use crate::roles::role_at;
use std::alloc::{AllocError, Global};
use vg_ast::{Item, MicroItem, Role};
use vg_parse_expr::sign_at;
use vg_tok::{Sign, Token};

/// What was read, where no token stands behind it.
fn whole<T: Drop>(found: Option<(T, &[Token])>) -> Option<T>
    ensures { (read : Option (T × List Placed)) → Reads (λ x. (x.0, placed x.1.now)) found.entry read → Reads (λ x. x) result (whole_of read) }
{
    let (tree, rest) = found?;
    if rest.is_empty() { Some(tree) } else { None }
}

/// The item that a piece is, or None where it is none.
#[tactic(auto, unfolding(crate::specs::Reading::item_piece))]
pub fn item(alloc: Global, piece: &[Token]) -> Result<Option<Item>, AllocError>
    ensures { IfOk result (λ found. Reads (λ x. x) found (item_piece (placed piece.now))) }
{
    Ok(whole(item_at(alloc, piece)?))
}

/// The role that a piece is, or None where it is none.
#[tactic(auto, unfolding(crate::specs::Reading::role_piece))]
pub fn role(alloc: Global, piece: &[Token]) -> Result<Option<Role>, AllocError>
    ensures { IfOk result (λ found. Reads (λ x. x) found (role_piece (placed piece.now))) }
{
    Ok(whole(role_at(alloc, piece)?))
}

/// The item of a micro architecture that a piece is, or None where it is none.
#[tactic(auto, unfolding(crate::specs::Reading::micro_item_piece))]
pub fn micro_item(alloc: Global, piece: &[Token]) -> Result<Option<MicroItem>, AllocError>
    ensures { IfOk result (λ found. Reads (λ x. x) found (micro_item_piece (placed piece.now))) }
{
    Ok(whole(micro_item_at(alloc, piece)?))
}

/// The heading of an instruction set part that a piece is, or None where it is none.
#[tactic(auto, unfolding(crate::specs::Reading::isa_heading_piece))]
pub fn isa_heading(alloc: Global, piece: &[Token]) -> Result<Option<Heading>, AllocError>
    ensures { IfOk result (λ found. Reads (λ x. x) found (isa_heading_piece (placed piece.now))) }
{
    Ok(whole(isa_heading_at(alloc, piece)?))
}

/// The heading of an application binary interface that a piece is, or None where it is none.
#[tactic(auto, unfolding(crate::specs::Reading::abi_heading_piece))]
pub fn abi_heading(alloc: Global, piece: &[Token]) -> Result<Option<Heading>, AllocError>
    ensures { IfOk result (λ found. Reads (λ x. x) found (abi_heading_piece (placed piece.now))) }
{
    Ok(whole(abi_heading_at(alloc, piece)?))
}

/// The heading of a micro architecture that a piece is, or None where it is none.
#[tactic(auto, unfolding(crate::specs::Reading::micro_heading_piece))]
pub fn micro_heading(alloc: Global, piece: &[Token]) -> Result<Option<Heading>, AllocError>
    ensures { IfOk result (λ found. Reads (λ x. x) found (micro_heading_piece (placed piece.now))) }
{
    Ok(whole(micro_heading_at(alloc, piece)?))
}

/// The place of the `}` that a piece is, or None where it is none.
#[tactic(auto, unfolding(crate::specs::Reading::closing_piece))]
pub fn closing(piece: &[Token]) -> Option<usize>
    ensures { Reads (λ x. x) result (closing_piece (placed piece.now)) }
{
    whole(sign_at(Sign::CloseBrace, piece))
}
