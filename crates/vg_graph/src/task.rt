use vg_isa::Expr;

/// What is to be done with a tree.
#[derive(Clone, Copy)]
pub enum Task<'a> {
    /// To go into its operands.
    Enter(&'a Expr),
    /// To make its node; its operands have theirs.
    Leave(&'a Expr),
}
