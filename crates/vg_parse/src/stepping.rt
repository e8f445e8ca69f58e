ghost use Rattle.std.specs.Prelude.{◌≡◌, IfOk};
ghost use Rattle.vg_ast.specs.Placed.{placed};
ghost use Rattle.vg_parse_expr.specs.Lexeme.{Reads};
ghost use Rattle.vg_parse.specs.Run.{isa_step, abi_step, micro_step, micro_begin, abi_begin, behind_step, step};

use crate::state::State;
use sqlite_items::Items;
use std::alloc::{AllocError, Global};
use vg_ast::{Abi, Desc, Item, Micro, MicroItem, Role};
use vg_parse_item::{
    Heading, abi_heading, closing, isa_heading, item, micro_heading, micro_item, role,
};
use vg_tok::Token;

/// What is read with a piece in the braces of the instruction set part.
#[tactic(auto, unfolding(crate::specs::Run::isa_step))]
fn isa_step(
    alloc: Global,
    heading: Heading,
    items: Items<Item>,
    piece: &[Token],
) -> Result<Option<State>, AllocError>
    ensures { IfOk result (λ next. Reads (λ s. s) next (isa_step heading items (placed piece.now))) }
{
    if let Some(close) = closing(piece) {
        return Ok(Some(State::Behind {
            desc: Desc {
                name: heading.name,
                items,
                close,
                abi: None,
                micro: None,
            },
        }));
    }
    match item(alloc, piece)? {
        Some(item) => {
            let mut items = items;
            items.push(item)?;
            Ok(Some(State::InIsa { heading, items }))
        }
        None => Ok(None),
    }
}

/// What is read with a piece in the braces of the application binary interface part.
#[tactic(auto, unfolding(crate::specs::Run::abi_step))]
fn abi_step(
    alloc: Global,
    desc: Desc,
    heading: Heading,
    roles: Items<Role>,
    piece: &[Token],
) -> Result<Option<State>, AllocError>
    ensures { IfOk result (λ next. Reads (λ s. s) next (abi_step desc heading roles (placed piece.now))) }
{
    if let Some(close) = closing(piece) {
        let abi = Abi {
            at: heading.at,
            name: heading.name,
            roles,
            close,
        };
        return Ok(Some(State::Behind {
            desc: Desc {
                abi: Some(abi),
                ..desc
            },
        }));
    }
    match role(alloc, piece)? {
        Some(role) => {
            let mut roles = roles;
            roles.push(role)?;
            Ok(Some(State::InAbi {
                desc,
                heading,
                roles,
            }))
        }
        None => Ok(None),
    }
}

/// What is read with a piece in the braces of the micro architecture part.
#[tactic(auto, unfolding(crate::specs::Run::micro_step))]
fn micro_step(
    alloc: Global,
    desc: Desc,
    heading: Heading,
    items: Items<MicroItem>,
    piece: &[Token],
) -> Result<Option<State>, AllocError>
    ensures { IfOk result (λ next. Reads (λ s. s) next (micro_step desc heading items (placed piece.now))) }
{
    if let Some(close) = closing(piece) {
        let micro = Micro {
            at: heading.at,
            name: heading.name,
            items,
            close,
        };
        return Ok(Some(State::Behind {
            desc: Desc {
                micro: Some(micro),
                ..desc
            },
        }));
    }
    match micro_item(alloc, piece)? {
        Some(item) => {
            let mut items = items;
            items.push(item)?;
            Ok(Some(State::InMicro {
                desc,
                heading,
                items,
            }))
        }
        None => Ok(None),
    }
}

/// The micro architecture part is begun where the piece is its heading.
#[tactic(auto, unfolding(crate::specs::Run::micro_begin))]
fn micro_begin(alloc: Global, desc: Desc, piece: &[Token]) -> Result<Option<State>, AllocError>
    ensures { IfOk result (λ next. Reads (λ s. s) next (micro_begin desc (placed piece.now))) }
{
    match micro_heading(alloc, piece)? {
        Some(heading) => Ok(Some(State::InMicro {
            desc,
            heading,
            items: Items::new(alloc),
        })),
        None => Ok(None),
    }
}

/// The application binary interface part or the micro architecture part is begun where the piece is its heading.
#[tactic(auto, unfolding(crate::specs::Run::abi_begin))]
fn abi_begin(alloc: Global, desc: Desc, piece: &[Token]) -> Result<Option<State>, AllocError>
    ensures { IfOk result (λ next. Reads (λ s. s) next (abi_begin desc (placed piece.now))) }
{
    match abi_heading(alloc, piece)? {
        Some(heading) => Ok(Some(State::InAbi {
            desc,
            heading,
            roles: Items::new(alloc),
        })),
        None => micro_begin(alloc, desc, piece),
    }
}

/// What is read with a piece behind a part.
#[tactic(auto, unfolding(crate::specs::Run::behind_step))]
fn behind_step(alloc: Global, desc: Desc, piece: &[Token]) -> Result<Option<State>, AllocError>
    ensures { IfOk result (λ next. Reads (λ s. s) next (behind_step desc (placed piece.now))) }
{
    if desc.micro.is_some() {
        return Ok(None);
    }
    if desc.abi.is_some() {
        return micro_begin(alloc, desc, piece);
    }
    abi_begin(alloc, desc, piece)
}

/// What is read with one more piece; None where the piece can't stand there.
#[tactic(auto, unfolding(crate::specs::Run::step))]
pub fn step(alloc: Global, state: State, piece: &[Token]) -> Result<Option<State>, AllocError>
    ensures { IfOk result (λ next. Reads (λ s. s) next (step state (placed piece.now))) }
{
    match state {
        State::Start => match isa_heading(alloc, piece)? {
            Some(heading) => Ok(Some(State::InIsa {
                heading,
                items: Items::new(alloc),
            })),
            None => Ok(None),
        },
        State::InIsa { heading, items } => isa_step(alloc, heading, items, piece),
        State::Behind { desc } => behind_step(alloc, desc, piece),
        State::InAbi {
            desc,
            heading,
            roles,
        } => abi_step(alloc, desc, heading, roles, piece),
        State::InMicro {
            desc,
            heading,
            items,
        } => micro_step(alloc, desc, heading, items, piece),
    }
}
