//! What assignments write.
ghost use Rattle.std.specs.Prelude.{◌≡◌, ℕ, List, IfOk};
ghost use Rattle.vg_inline.specs.declared.tree.Tree.{Tree};
ghost use Rattle.vg_inline.specs.declared.effect.Effect.TheVariants as effects;
ghost use Rattle.vg_type.specs.Setting.{setting_in};
ghost use Rattle.vg_tree.specs.Access.{target_size, write_of as write_by};
ghost use Rattle.vg_tree.specs.Frame.{frame_in};
ghost use Rattle.vg_tree.specs.Written.{target_number, target_place, written};
ghost use Rattle.vg_access.specs.Given.{part_written, write_in};

use crate::write::Write;
use sqlite_items::Boxed;
use std::alloc::{AllocError, Global};
use vg_inline::{Effect, Target};
use vg_isa::Expr;
use vg_tree::{Frame, value_or, written_to};

/// The number of the item that is written.
fn item_of(target: Target, frame: &Frame) -> usize
    ensures { result ≡ target_number (setting_in frame.now.setting.now.context.now) target }
{
    match target {
        Target::Resource { item, .. } | Target::Indexed { item, .. } => item,
        Target::Access { .. } => frame.memory,
    }
}

/// How many bytes of memory are written.
fn size_of(target: Target) -> u128
    ensures { result ≡ target_size target }
{
    match target {
        Target::Resource { .. } | Target::Indexed { .. } => 0,
        Target::Access { size, .. } => value_or(size),
    }
}

/// The place of the name that is written.
fn place_of(target: Target) -> usize
    ensures { result ≡ target_place target }
{
    match target {
        Target::Resource { at, .. } | Target::Indexed { at, .. } | Target::Access { at, .. } => at,
    }
}

/// The index or address at which a statement writes an item.
fn part_of(
    alloc: Global,
    effect: &Effect,
    item: usize,
    frame: &Frame,
) -> Result<Option<Boxed<Expr>>, AllocError>
    ensures { IfOk result (λ at. at ≡ part_written (written (frame_in frame.now) item effect.now)) }
{
    match written_to(alloc, effect, item, frame)? {
        None => Ok(None),
        Some(written) => Ok(written.at),
    }
}

/// The write that an assignment is.
pub(crate) fn write_of(
    alloc: Global,
    target: Target,
    effect: &Effect,
    frame: &Frame,
) -> Result<Write, AllocError>
    ensures { IfOk result (λ it. (parts : List Tree) (value_at : ℕ) (value : Tree) → effect.now ≡ effects.Assign target parts value_at value → write_in it ≡ write_by (frame_in frame.now) target parts) }
{
    let item = item_of(target, frame);
    let at = part_of(alloc, effect, item, frame)?;
    Ok(Write {
        item,
        at,
        bytes: size_of(target),
        place: place_of(target),
    })
}
