ghost use Rattle.std.specs.Prelude.{◌≡◌};
ghost use Rattle.vg_inline.specs.declared.tree.Tree.{out-Tree};
ghost use Rattle.vg_inline.specs.Instantiate.{leaf_parameter as leaf_parameter_of, parameter_of as parameter_of_node};

use crate::{Head, Tree};

fn leaf_parameter(head: Head) -> Option<usize>
    ensures { result ≡ leaf_parameter_of head }
{
    match head {
        Head::Parameter { parameter } => Some(parameter),
        _ => None,
    }
}

/// The parameter that a tree is.
pub(crate) fn parameter_of(tree: &Tree) -> Option<usize>
    ensures { result ≡ parameter_of_node (out-Tree tree.now).head (out-Tree tree.now).parts }
{
    match tree.parts.as_slice() {
        [] => leaf_parameter(tree.head),
        _ => None,
    }
}
