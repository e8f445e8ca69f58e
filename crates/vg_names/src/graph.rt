ghost use Rattle.std.specs.Prelude.{IfOk};
ghost use Rattle.vg_names.specs.Graph.{IsClosed};
ghost use Rattle.vg_names.specs.Sorted.{SortsGraph};

use crate::circle::first_circular;
use crate::mark::Mark;
use crate::search::search;
use crate::sorting::Sorting;
use sqlite_items::Items;
use std::alloc::{AllocError, Global};

/// Puts the nodes of a graph into an order in which each stands behind all that it uses, or tells the first that uses
/// itself. Each node has the list of the nodes that it uses.
pub fn sorted(alloc: Global, graph: &[Items<usize>]) -> Result<Sorting, AllocError>
    requires { IsClosed graph.now }
    ensures { IfOk result (λ sorting. SortsGraph graph.now sorting) }
{
    let mut marks = vec![in alloc; Mark::New; graph.len()]?;
    let mut order = Vec::new(alloc);
    for root in 0..graph.len() {
        match search(alloc, graph, root, &mut marks, &mut order)? {
            None => {}
            Some(node) => return Ok(Sorting::Circular(first_circular(alloc, graph, node)?)),
        }
    }
    Ok(Sorting::Order(Items::from_vec(order)))
}
