ghost use Rattle.vg_inline.specs.declared.tree.Tree.{Tree};
ghost use Rattle.vg_isa.specs.declared.isa.Parts.{Parts};
ghost use Rattle.vg_tree.specs.Made.{Frame, made};
ghost use Rattle.vg_tree.specs.TypedMade.{IsFrameOf, IsTypedMade};

/// A law: for a processor that has the fields, registers and addresses of a frame, what stands for any tree has the width
/// of what it is, and each operand in it the width that its place needs. So no tree that is made has an operand of a wrong
/// width, whatever the tree that it stands for.
pub fn made_is_typed()
    ensures { (d : Parts) (frame : Frame) → IsFrameOf d frame → (t : Tree) → IsTypedMade d (made frame t) }
{}
