ghost use Rattle.std.specs.Prelude.{◌≡◌, ◌≢◌, ℕ, ◌<◌, ◌≤◌, length, slice_index, IfOk, IfNone, IfSome};
ghost use Rattle.std.specs.List.{All, Contains};
ghost use Rattle.std.specs.Option.{unwrap_or};
ghost use Rattle.vg_names.specs.declared.mark.Mark.TheVariants.{Done};
ghost use Rattle.vg_names.specs.Graph.{IsClosed, Leads};
ghost use Rattle.vg_names.specs.Search.{mark_at, IsSearched, Keeps};

use crate::mark::Mark;
use crate::step::Step;
use sqlite_items::Items;
use std::alloc::{AllocError, Global};

/// The index of the first use from an index on that isn't done.
fn next_use(uses: &[usize], from: usize, marks: &[Mark]) -> Option<usize>
    requires { All (λ used. used < length marks.now) uses.now }
    ensures within { IfSome result (λ at. at < length uses.now) }
    ensures passed { (k : ℕ) → from ≤ k → k < unwrap_or result (length uses.now) → mark_at marks.now (slice_index uses.now k) ≡ Done }
    ensures not_done { IfSome result (λ at. mark_at marks.now (slice_index uses.now at) ≢ Done) }
{
    for at in from..uses.len() {
        match marks[uses[at]] {
            Mark::Done => {}
            Mark::New | Mark::Open => return Some(at),
        }
    }
    None
}

/// Puts a node and all that it uses, directly or through others, into the order, each behind all that it uses; or tells
/// a node that uses itself. The nodes whose uses aren't done yet are kept in a list, so that a long chain is no deep
/// recursion.
pub fn search(
    alloc: Global,
    graph: &[Items<usize>],
    root: usize,
    marks: &mut [Mark],
    order: &mut Vec<usize>,
) -> Result<Option<usize>, AllocError>
    requires closed { IsClosed graph.now }
    requires within { root < length graph.now }
    requires searched { IsSearched graph.now marks.old order.old.items }
    ensures searched { IfOk result (λ circular. IfNone circular (IsSearched graph.now marks.new order.new.items)) }
    ensures found { IfOk result (λ circular. IfNone circular (Contains order.new.items root)) }
    ensures kept { IfOk result (λ circular. IfNone circular (Keeps order.old.items order.new.items)) }
    ensures within { IfOk result (λ circular. IfSome circular (λ node. node < length graph.now)) }
    ensures circular { IfOk result (λ circular. IfSome circular (λ node. Leads graph.now node node)) }
{
    if let Mark::Done = marks[root] {
        return Ok(None);
    }
    marks[root] = Mark::Open;
    let mut open = Vec::new(alloc);
    open.push(Step {
        node: root,
        passed: 0,
    })?;
    while let Some(step) = open.pop() {
        let uses = graph[step.node].as_slice();
        match next_use(uses, step.passed, marks) {
            None => {
                marks[step.node] = Mark::Done;
                order.push(step.node)?;
            }
            Some(at) => {
                let used = uses[at];
                if let Mark::Open = marks[used] {
                    return Ok(Some(used));
                }
                marks[used] = Mark::Open;
                open.push(Step {
                    node: step.node,
                    passed: at,
                })?;
                open.push(Step {
                    node: used,
                    passed: 0,
                })?;
            }
        }
    }
    Ok(None)
}
