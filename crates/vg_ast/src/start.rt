ghost use Rattle.std.specs.Prelude.{◌≡◌};
ghost use Rattle.vg_ast.specs.Start.{start_of};

use crate::Expr;

/// The place of the first token of an expression.
#[tactic(auto, using(crate::proofs::StartLemmas::start_steps))]
pub fn start_of(e: &Expr) -> usize
    ensures { result ≡ start_of e.now }
{
    match e {
        Expr::Number { at, .. }
        | Expr::Join { at, .. }
        | Expr::Parentheses { at, .. }
        | Expr::Unary { at, .. }
        | Expr::If { at, .. }
        | Expr::Let { at, .. } => *at,
        Expr::Name(name) | Expr::Call { name, .. } => name.at,
        Expr::Access { memory, .. } => memory.at,
        Expr::Binary { left, .. } => start_of(left.get()),
        Expr::Cast { operand, .. } | Expr::Slice { operand, .. } => start_of(operand.get()),
    }
}
