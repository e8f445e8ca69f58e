ghost use Rattle.std.specs.Prelude.{◌≡◌, IfOk, IsTrue, OnErr, OnOk};
ghost use Rattle.vg_isa.specs.Accepted.{is_isa};
ghost use Rattle.vg_graph.specs.declared.root.Root.{Root as Part};
ghost use Rattle.vg_graph.specs.Graph.{IsGraph, root_of};
ghost use Rattle.vg_norm.specs.Normal.{HasOneRoot, HasSameTrees, IsNormal, KeepsValues};
ghost use Rattle.vg_norm.specs.Images.{HasImageAt, HasMoreImages, IsNextImage, IsNextWithin, IsPartWithin, IsVisit, IsWriteImage, IsWriteWithin};

use crate::visit::Visit;
use sqlite_items::Items;
use std::alloc::{AllocError, Global};
use vg_graph::{Graph, NextRoots, Roots, WriteRoots};

/// The image of a part, where there is one.
fn image_at<'a>(
    visit: &mut Visit<'a>,
    alloc: Global,
    g: &Graph<'a>,
    at: Option<u32>,
) -> Result<Option<u32>, AllocError>
    requires graph { IsGraph g.now }
    requires visit { IsVisit g.now visit.old }
    requires within { IsPartWithin g.now at }
    ensures visit { OnOk result (IsVisit g.now visit.new) }
    ensures more { OnOk result (HasMoreImages visit.old visit.new) }
    ensures image { IfOk result (λ j. HasImageAt g.now at visit.new.fresh.graph j) }
{
    match at {
        None => Ok(None),
        Some(n) => {
            let j = visit.image(alloc, g, n)?;
            Ok(Some(j))
        }
    }
}

/// The images of the parts of a write.
fn write_image<'a>(
    visit: &mut Visit<'a>,
    alloc: Global,
    g: &Graph<'a>,
    write: WriteRoots,
) -> Result<WriteRoots, AllocError>
    requires graph { IsGraph g.now }
    requires visit { IsVisit g.now visit.old }
    requires within { IsWriteWithin g.now write }
    ensures visit { OnOk result (IsVisit g.now visit.new) }
    ensures more { OnOk result (HasMoreImages visit.old visit.new) }
    ensures image { IfOk result (λ w. IsWriteImage g.now write visit.new.fresh.graph w) }
{
    let guard = visit.image(alloc, g, write.guard)?;
    let at = image_at(visit, alloc, g, write.at)?;
    let value = visit.image(alloc, g, write.value)?;
    Ok(WriteRoots { guard, at, value })
}

/// The images of the parts of the next program counter.
fn next_image<'a>(
    visit: &mut Visit<'a>,
    alloc: Global,
    g: &Graph<'a>,
    next: Option<NextRoots>,
) -> Result<Option<NextRoots>, AllocError>
    requires graph { IsGraph g.now }
    requires visit { IsVisit g.now visit.old }
    requires within { IsNextWithin g.now next }
    ensures visit { OnOk result (IsVisit g.now visit.new) }
    ensures more { OnOk result (HasMoreImages visit.old visit.new) }
    ensures image { IfOk result (λ n. IsNextImage g.now next visit.new.fresh.graph n) }
{
    match next {
        None => Ok(None),
        Some(roots) => {
            let guard = visit.image(alloc, g, roots.guard)?;
            let value = visit.image(alloc, g, roots.value)?;
            Ok(Some(NextRoots { guard, value }))
        }
    }
}

/// The images of all parts.
fn root_images<'a>(visit: &mut Visit<'a>, alloc: Global, g: &Graph<'a>) -> Result<Roots, AllocError>
    requires { IsVisit g.now visit.old }
    ensures visit { OnOk result (IsVisit g.now visit.new) }
    ensures images { IfOk result (λ roots. (r : Part) → HasImageAt g.now (root_of g.now.roots r) visit.new.fresh.graph (root_of roots r)) }
{
    let roots = g.roots();
    let mut writes = Vec::new(alloc);
    for write in roots.writes.as_slice() {
        let image = write_image(visit, alloc, g, *write)?;
        writes.push(image)?;
    }
    let next = next_image(visit, alloc, g, roots.next)?;
    Ok(Roots {
        writes: Items::from_vec(writes),
        next,
    })
}

/// What a graph and its description keep, told to the prover.
fn told(g: &Graph)
    ensures graph { IsGraph g.now }
    ensures accepted { IsTrue (is_isa g.now.isa) }
{
    let _ = g.isa().parts();
}

/// The normal form of a graph.
fn normalised<'a>(alloc: Global, g: &Graph<'a>) -> Result<Graph<'a>, AllocError>
    ensures isa { IfOk result (λ h. h.isa ≡ g.now.isa) }
    ensures normal { IfOk result (λ h. IsNormal h) }
    ensures same { IfOk result (λ h. HasSameTrees g.now h) }
    ensures values { IfOk result (λ h. KeepsValues g.now h) }
    ensures exact { IfOk result (λ h. HasOneRoot g.now h) }
{
    told(g);
    let mut visit = Visit::new(alloc, g)?;
    let roots = root_images(&mut visit, alloc, g)?;
    let mut graph = visit.fresh.graph;
    graph.set_roots(roots);
    told(&graph);
    Ok(graph)
}

/// Brings a graph into its normal form. Without the memory for it the graph stays as it is.
///
/// Each root keeps its tree up to the order of operands that may stand in either and up to casts that change nothing, and
/// so its value for each word in each lawful state. Two roots are one node then exactly where their trees were alike.
/// It takes time for the nodes that the roots use, and makes no others.
pub fn normal<'a>(alloc: Global, g: &mut Graph<'a>) -> Result<(), AllocError>
    ensures isa { g.new.isa ≡ g.old.isa }
    ensures normal { OnOk result (IsNormal g.new) }
    ensures same { OnOk result (HasSameTrees g.old g.new) }
    ensures values { OnOk result (KeepsValues g.old g.new) }
    ensures exact { OnOk result (HasOneRoot g.old g.new) }
    ensures err { OnErr result (g.new ≡ g.old) }
{
    let fresh = normalised(alloc, g)?;
    *g = fresh;
    Ok(())
}
