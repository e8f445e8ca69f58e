//! Laws on trees that are alike, and on graphs in normal form.
ghost use Rattle.std.specs.Prelude.{◌≡◌, ◌↔◌, ℕ, false, true, IsTrue};
ghost use Rattle.vg_isa.specs.declared.isa.Parts.{Parts};
ghost use Rattle.vg_isa.specs.declared.expr.Expr.{Expr};
ghost use Rattle.vg_isa.specs.Accepted.{is_isa};
ghost use Rattle.vg_isa.specs.Typing.{is_typed, typing_of};
ghost use Rattle.vg_isa.specs.Value.{IsLawful, Reads, value_of};
ghost use Rattle.vg_graph.specs.Alike.{Alike};
ghost use Rattle.vg_graph.specs.Graph.{GraphValue, IsGraph};
ghost use Rattle.vg_graph.specs.Tree.{IsTree};
ghost use Rattle.vg_norm.specs.Normal.{IsNormal};
ghost use Rattle.vg_norm.specs.NormalTree.{is_first, normal_tree};

/// Trees that are alike have one width, and the one is typed where the other is. For a word in a lawful state typed ones
/// have one value.
pub fn alike_trees()
    ensures typings { (d : Parts) (e f : Expr) → Alike d e f → typing_of d e ≡ typing_of d f }
    ensures values { (d : Parts) (e f : Expr) (word : ℕ) (s : Reads) → IsTrue (is_isa d) → IsLawful d s → IsTrue (is_typed d e)
        → Alike d e f → value_of d e word s ≡ value_of d f word s }
{}

/// Of two operands one is first, and those that are first to each other are the same.
pub fn order_of_operands()
    ensures total { (e f : Expr) → is_first e f ≡ false → is_first f e ≡ true }
    ensures exact { (e f : Expr) → is_first e f ≡ true → is_first f e ≡ true → e ≡ f }
{}

/// A typed tree is alike to its normal form. Two typed trees are alike exactly where their normal forms are equal. The
/// normal form of a normal form is that itself.
pub fn normal_trees()
    ensures alike { (d : Parts) (e : Expr) → IsTrue (is_isa d) → IsTrue (is_typed d e) → Alike d e (normal_tree d e) }
    ensures exact { (d : Parts) (e f : Expr) → IsTrue (is_isa d) → IsTrue (is_typed d e) → IsTrue (is_typed d f)
        → (Alike d e f ↔ (normal_tree d e ≡ normal_tree d f)) }
    ensures settled { (d : Parts) (e : Expr) → IsTrue (is_isa d) → IsTrue (is_typed d e)
        → normal_tree d (normal_tree d e) ≡ normal_tree d e }
{}

/// In a graph in normal form the trees at two nodes are alike exactly where the nodes are one.
pub fn normal_graphs()
    ensures { (g : GraphValue) (m n : ℕ) (e f : Expr) → IsTrue (is_isa g.isa) → IsGraph g → IsNormal g
        → IsTree g.nodes m e → IsTree g.nodes n f → (Alike g.isa e f ↔ (m ≡ n)) }
{}
