//! The trees of a processor that stand for expressions.

ghost use Rattle.std.specs.Prelude.{◌≡◌, IfOk};
ghost use Rattle.vg_tree.specs.Frame.{frame_in};
ghost use Rattle.vg_tree.specs.Made.{made, over_one as made_over_one, over_three as made_over_three, over_two as made_over_two};

use crate::accesses::{access, indexed};
use crate::casts::cast;
use crate::constants::nothing;
use crate::frame::Frame;
use crate::joins::{choice, join, slice};
use crate::leaves::leaf;
use crate::looking::{address, resource_at};
use crate::made::Made;
use crate::operators::{binary, unary};
use std::alloc::{AllocError, Global};
use vg_inline::{Head, Tree};

fn over_one(alloc: Global, head: Head, a: Made, frame: &Frame) -> Result<Made, AllocError>
    ensures { IfOk result (λ it. it ≡ made_over_one (frame_in frame.now) head a) }
{
    match head {
        Head::Indexed { item, .. } => indexed(alloc, resource_at(frame, item), a),
        Head::Access {
            at,
            size,
            address_at,
        } => access(alloc, address(frame), at, size, address_at, a),
        Head::Unary { operator } => unary(alloc, operator, a),
        Head::Cast { target } => cast(alloc, target, a),
        Head::Slice { high, low } => slice(alloc, high, low, a),
        _ => nothing(alloc),
    }
}

fn over_two(alloc: Global, head: Head, a: Made, b: Made) -> Result<Made, AllocError>
    ensures { IfOk result (λ it. it ≡ made_over_two head a b) }
{
    match head {
        Head::Join => join(alloc, a, b),
        Head::Binary { operator } => binary(alloc, operator, a, b),
        _ => nothing(alloc),
    }
}

fn over_three(alloc: Global, head: Head, c: Made, a: Made, b: Made) -> Result<Made, AllocError>
    ensures { IfOk result (λ it. it ≡ made_over_three head c a b) }
{
    match head {
        Head::If => choice(alloc, c, a, b),
        _ => nothing(alloc),
    }
}

/// What stands for a tree with everything in place, unless memory ends.
#[cycle(make)]
#[tactic(auto, using(crate::proofs::MadeLemmas::made_tree))]
pub fn make(alloc: Global, tree: &Tree, frame: &Frame) -> Result<Made, AllocError>
    ensures { IfOk result (λ it. it ≡ made (frame_in frame.now) tree.now) }
{
    match tree.parts.as_slice() {
        [] => leaf(alloc, tree.head, frame),
        [a] => over_one(alloc, tree.head, make(alloc, a, frame)?, frame),
        [a, b] => {
            let a = make(alloc, a, frame)?;
            let b = make(alloc, b, frame)?;
            over_two(alloc, tree.head, a, b)
        }
        [c, a, b] => {
            let c = make(alloc, c, frame)?;
            let a = make(alloc, a, frame)?;
            let b = make(alloc, b, frame)?;
            over_three(alloc, tree.head, c, a, b)
        }
        _ => nothing(alloc),
    }
}
