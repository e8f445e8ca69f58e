ghost use Rattle.std.specs.Prelude.{◌≡◌, ◌≢◌, ◌+◌, ◌<◌, ℕ, true, false, not, length, count_by, ◌⊎◌, IfOk};
ghost use Rattle.std.specs.List.{All, Contains};
ghost use Rattle.vg_names.specs.Graph.{IsClosed, IsFirstCircular, Leads};
ghost use Rattle.vg_names.specs.Search.{IsPassed, seen_at};

use sqlite_items::Items;
use std::alloc::{AllocError, Global};

/// Puts the uses that weren't seen yet behind the work; true where the node that is sought is among the uses.
fn meet(
    uses: &[usize],
    sought: usize,
    seen: &mut [bool],
    work: &mut Vec<usize>,
) -> Result<bool, AllocError>
    requires { All (λ used. used < length seen.old) uses.now }
    ensures found { IfOk result (λ met. met ≡ true → Contains uses.now sought) }
    ensures met { IfOk result (λ met. met ≡ false → All (IsPassed seen.new sought) uses.now) }
    ensures seen { (k : ℕ) → seen_at seen.old k ≡ true → seen_at seen.new k ≡ true }
    ensures noted { IfOk result (λ met. met ≡ false → (k : ℕ) → seen_at seen.new k ≡ true → (seen_at seen.old k ≡ true) ⊎ Contains work.new.items k) }
    ensures kept { IfOk result (λ met. met ≡ false → (k : ℕ) → Contains work.old.items k → Contains work.new.items k) }
    ensures added { IfOk result (λ met. met ≡ false → (k : ℕ) → Contains work.new.items k → Contains work.old.items k ⊎ Contains uses.now k) }
    ensures less { IfOk result (λ met. met ≡ false → count_by not seen.new + length work.new.items ≡ count_by not seen.old + length work.old.items) }
{
    for used in uses {
        if *used == sought {
            return Ok(true);
        }
        if !seen[*used] {
            seen[*used] = true;
            work.push(*used)?;
        }
    }
    Ok(false)
}

/// Whether a node uses itself, directly or through others.
fn is_circular(alloc: Global, graph: &[Items<usize>], node: usize) -> Result<bool, AllocError>
    requires closed { IsClosed graph.now }
    requires within { node < length graph.now }
    ensures yes { IfOk result (λ circular. circular ≡ true → Leads graph.now node node) }
    ensures no { IfOk result (λ circular. circular ≡ false → ¬ Leads graph.now node node) }
{
    let mut seen = vec![in alloc; false; graph.len()]?;
    let mut work = Vec::new(alloc);
    seen[node] = true;
    work.push(node)?;
    while let Some(current) = work.pop() {
        if meet(graph[current].as_slice(), node, &mut seen, &mut work)? {
            return Ok(true);
        }
    }
    Ok(false)
}

/// The first node that uses itself, where this one does.
pub fn first_circular(
    alloc: Global,
    graph: &[Items<usize>],
    last: usize,
) -> Result<usize, AllocError>
    requires closed { IsClosed graph.now }
    requires within { last < length graph.now }
    requires circular { Leads graph.now last last }
    ensures { IfOk result (λ node. IsFirstCircular graph.now node) }
{
    for node in 0..last {
        if is_circular(alloc, graph, node)? {
            return Ok(node);
        }
    }
    Ok(last)
}
