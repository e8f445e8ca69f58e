//! Laws on graphs.
ghost use Rattle.std.specs.Prelude.{◌≡◌, ℕ, List};
ghost use Rattle.vg_bits.specs.BitValue.{BitValue};
ghost use Rattle.vg_isa.specs.declared.isa.Parts.{Parts};
ghost use Rattle.vg_isa.specs.declared.expr.Expr.{Expr};
ghost use Rattle.vg_isa.specs.Value.{Reads, value_of};
ghost use Rattle.vg_graph.specs.declared.node.Node.{Node};
ghost use Rattle.vg_graph.specs.NodeValue.{HasValue};
ghost use Rattle.vg_graph.specs.Tree.{IsTree};

/// A node has one value for each word in each state, that of its tree.
pub fn values_of_trees()
    ensures has { (d : Parts) (nodes : List Node) (word : ℕ) (s : Reads) (n : ℕ) (e : Expr) → IsTree nodes n e
        → HasValue d nodes word s n (value_of d e word s) }
    ensures one { (d : Parts) (nodes : List Node) (word : ℕ) (s : Reads) (n : ℕ) (v : BitValue) (e : Expr)
        → HasValue d nodes word s n v → IsTree nodes n e → v ≡ value_of d e word s }
{}
