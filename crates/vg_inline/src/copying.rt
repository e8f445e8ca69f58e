ghost use Rattle.std.specs.Prelude.{◌≡◌, IfOk};

use crate::Tree;
use crate::kept::Kept;
use sqlite_items::Items;
use std::alloc::{AllocError, Global};

#[cycle(copy)]
fn copy(alloc: Global, tree: &Tree) -> Result<Tree, AllocError>
    ensures { IfOk result (λ copy. copy ≡ tree.now) }
{
    let parts = copy_all(alloc, tree.parts.as_slice())?;
    Ok(Tree {
        head: tree.head,
        parts,
    })
}

#[cycle(copy)]
fn copy_all(alloc: Global, trees: &[Tree]) -> Result<Items<Tree>, AllocError>
    ensures { IfOk result (λ copies. copies ≡ trees.now) }
{
    let mut copies = Items::new(alloc);
    for tree in trees {
        copies.push(copy(alloc, tree)?)?;
    }
    Ok(copies)
}

/// A copy of what was kept.
pub(crate) fn copy_kept(alloc: Global, kept: &Option<Kept>) -> Result<Option<Kept>, AllocError>
    ensures { IfOk result (λ copy. copy ≡ kept.now) }
{
    match kept {
        None => Ok(None),
        Some(kept) => {
            let tree = copy(alloc, &kept.tree)?;
            let parameters = Items::from_slice(alloc, kept.parameters.as_slice())?;
            Ok(Some(Kept {
                tree,
                nodes: kept.nodes,
                parameters,
            }))
        }
    }
}
