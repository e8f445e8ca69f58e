ghost use Rattle.std.specs.Prelude.{◌≡◌, ◌<◌, [], ◌∷◌, ◌++◌, vec_len, vec_capacity};

use crate::operands::Operands;
use crate::operator::Op;

/// A node of a graph: an operator over other nodes.
#[derive(Clone, Copy, Debug, PartialEq, Eq)]
pub struct Node {
    pub op: Op,
    pub args: Operands,
}

/// Puts a node behind the others. There is room for it.
pub fn push_node(nodes: &mut Vec<Node>, node: &Node)
    requires { vec_len nodes.old < vec_capacity nodes.old }
    ensures { nodes.new.items ≡ nodes.old.items ++ node.now ∷ [] }
{
    // The prover has no plan for a call of `push` with a struct of an enum.
    nodes.extend_from_slice(&[*node]).unwrap();
}
