//! Laws on trees.
ghost use Rattle.std.specs.Prelude.{◌≡◌, ◌↔◌, ℕ, IsTrue};
ghost use Rattle.vg_isa.specs.declared.isa.Parts.{Parts};
ghost use Rattle.vg_isa.specs.declared.expr.Expr.{Expr};
ghost use Rattle.vg_isa.specs.Accepted.{is_isa};
ghost use Rattle.vg_isa.specs.Same.{same_tree};
ghost use Rattle.vg_isa.specs.Typing.{is_typed, width_of};
ghost use Rattle.vg_isa.specs.Value.{IsLawful, IsValue, Reads, value_of};

/// The value of a typed tree in a lawful state is a bit value of the tree's width.
pub fn values_have_widths()
    ensures { (d : Parts) (e : Expr) (word : ℕ) (s : Reads) → IsTrue (is_isa d) → IsTrue (is_typed d e) → IsLawful d s → IsValue (width_of d e) (value_of d e word s) }
{}

/// The test whether two trees are the same tells exactly that.
pub fn same_trees()
    ensures { (e f : Expr) → IsTrue (same_tree e f) ↔ (e ≡ f) }
{}
