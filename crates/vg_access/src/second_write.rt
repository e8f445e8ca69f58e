//! The second write of a behaviour.
ghost use Rattle.std.specs.Prelude.{◌≡◌, ◌++◌, ◌≤◌, ℕ, List, length, map, take, drop, IfOk, OnOk};
ghost use Rattle.std.specs.Option.{option_map};
ghost use Rattle.vg_inline.specs.declared.tree.Tree.{Tree};
ghost use Rattle.vg_inline.specs.declared.effect.Effect.TheVariants as effects;
ghost use Rattle.vg_tree.specs.Access.{write_of as write_by, writing};
ghost use Rattle.vg_tree.specs.Frame.{frame_in};
ghost use Rattle.vg_access.specs.Given.{writes_in};
ghost use Rattle.vg_access.specs.Follows.{Follows, assigning, on_either_side, on_one_path};

use crate::following::may_not_follow;
use crate::write::Write;
use crate::writing::write_of;
use std::alloc::{AllocError, Global};
use vg_inline::{Effect, Target};
use vg_tree::Frame;

/// Moves the writes from a number on behind others.
fn move_tail(from: &mut Vec<Write>, number: usize, to: &mut Vec<Write>) -> Result<(), AllocError>
    requires { number ≤ length from.old.items }
    ensures front { OnOk result (from.new.items ≡ take number from.old.items) }
    ensures tail { OnOk result (to.new.items ≡ to.old.items ++ drop number from.old.items) }
{
    let mut tail = from.split_off(number)?;
    to.append(&mut tail)
}

/// Moves the writes of both sides of a conditional behind those of its path: those of the first stand aside, behind others.
fn put_back(
    before: usize,
    aside: usize,
    path: &mut Vec<Write>,
    others: &mut Vec<Write>,
) -> Result<(), AllocError>
    requires before { before ≤ length path.old.items }
    requires aside { aside ≤ length others.old.items }
    ensures path { OnOk result (path.new.items ≡ take before path.old.items ++ drop aside (others.old.items ++ drop before path.old.items)) }
    ensures others { OnOk result (others.new.items ≡ take aside (others.old.items ++ drop before path.old.items)) }
{
    move_tail(path, before, others)?;
    move_tail(others, aside, path)
}

/// An assignment: its place where it may not stand behind the writes of its path and those of other paths; else it is put
/// behind those of its path.
fn in_assignment(
    alloc: Global,
    target: Target,
    effect: &Effect,
    frame: &Frame,
    path: &mut Vec<Write>,
    others: &Vec<Write>,
) -> Result<Option<usize>, AllocError>
    ensures { IfOk result (λ found. (parts : List Tree) (value_at : ℕ) (value : Tree) → effect.now ≡ effects.Assign target parts value_at value → Follows (assigning (write_by (frame_in frame.now) target parts)) (writes_in path.old.items) (writes_in others.now.items) found (writes_in path.new.items) (writes_in others.now.items)) }
{
    let write = write_of(alloc, target, effect, frame)?;
    if may_not_follow(&write, path.as_slice(), others.as_slice()) {
        return Ok(Some(write.place));
    }
    path.push(write)?;
    Ok(None)
}

/// Statements of one path.
#[cycle(effect)]
fn in_turn(
    alloc: Global,
    effects: &[Effect],
    frame: &Frame,
    path: &mut Vec<Write>,
    others: &mut Vec<Write>,
) -> Result<Option<usize>, AllocError>
    ensures { IfOk result (λ found. Follows (on_one_path (map (writing (frame_in frame.now)) effects.now)) (writes_in path.old.items) (writes_in others.old.items) found (writes_in path.new.items) (writes_in others.new.items)) }
{
    for effect in effects {
        if let Some(at) = second_write(alloc, effect, frame, path, others)? {
            return Ok(Some(at));
        }
    }
    Ok(None)
}

/// The first write of a statement that may not stand behind those of its path and those of other paths: the place of its
/// name. Where there is none, the writes of the statement are put behind those of its path.
#[cycle(effect)]
pub(crate) fn second_write(
    alloc: Global,
    effect: &Effect,
    frame: &Frame,
    path: &mut Vec<Write>,
    others: &mut Vec<Write>,
) -> Result<Option<usize>, AllocError>
    ensures { IfOk result (λ found. Follows (writing (frame_in frame.now) effect.now) (writes_in path.old.items) (writes_in others.old.items) found (writes_in path.new.items) (writes_in others.new.items)) }
{
    match effect {
        Effect::Block { effects } => in_turn(alloc, effects.as_slice(), frame, path, others),
        Effect::If {
            then,
            otherwise,
            ..
        } => match otherwise {
            None => second_write(alloc, then.get(), frame, path, others),
            Some(otherwise) => {
                let before = path.len();
                let aside = others.len();
                if let Some(at) = second_write(alloc, then.get(), frame, path, others)? {
                    return Ok(Some(at));
                }
                move_tail(path, before, others)?;
                if let Some(at) = second_write(alloc, otherwise.get(), frame, path, others)? {
                    return Ok(Some(at));
                }
                put_back(before, aside, path, others)?;
                Ok(None)
            }
        },
        Effect::Assign { target, .. } => {
            in_assignment(alloc, *target, effect, frame, path, others)
        }
    }
}
