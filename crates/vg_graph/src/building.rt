ghost use Rattle.std.specs.Prelude.{◌≡◌, ℕ, ◌≤◌, [], ◌∷◌, ◌++◌, length, List, IfOk, OnOk, IsTrue};
ghost use Rattle.vg_isa.specs.declared.expr.Expr.{Expr as Tree, out-Expr};
ghost use Rattle.vg_isa.specs.Typing.{is_typed};
ghost use Rattle.vg_graph.specs.Node.{numbers_of};
ghost use Rattle.vg_graph.specs.Tree.{IsTree};
ghost use Rattle.vg_graph.specs.Building.{Extends, StandAll, entering, from_top, op_in, operands_of};

use crate::graph::Graph;
use crate::node::Node;
use crate::operands::Operands;
use crate::operator::Op;
use crate::task::Task;
use std::alloc::{AllocError, Global};
use vg_isa::Expr;

/// The operator of a tree, and how many operands it has.
fn operator(e: &Expr) -> (Op, u8)
    ensures op { result.0 ≡ op_in (out-Expr e.now) }
    ensures count { result.1 ≡ length (operands_of e.now) }
{
    match e {
        Expr::Const(b) => (Op::Const(*b), 0),
        Expr::Field(f) => (Op::Field(*f), 0),
        Expr::Pc => (Op::Pc, 0),
        Expr::Reg(r, None) => (Op::Reg(*r), 0),
        Expr::Reg(r, Some(_)) => (Op::Reg(*r), 1),
        Expr::Mem(_, bytes) => (Op::Mem(*bytes), 1),
        Expr::Unary(op, _) => (Op::Unary(*op), 1),
        Expr::Binary(op, _, _) => (Op::Binary(*op), 2),
        Expr::Cast(op, width, _) => (Op::Cast(*op, *width), 1),
        Expr::Slice(_, high, low) => (Op::Slice(*high, *low), 1),
        Expr::Join(_, _) => (Op::Join, 2),
        Expr::If(_, _, _) => (Op::If, 3),
    }
}

/// Takes the last numbers as operands, in order.
fn pop_operands(values: &mut Vec<u32>, count: u8) -> Operands
    requires few { count ≤ 3 }
    requires there { count ≤ length values.old.items }
    ensures count { length (numbers_of result) ≡ count }
    ensures values { values.old.items ≡ values.new.items ++ numbers_of result }
{
    match count {
        0 => Operands::Zero,
        1 => Operands::One(values.pop().unwrap()),
        2 => {
            let b = values.pop().unwrap();
            let a = values.pop().unwrap();
            Operands::Two(a, b)
        }
        _ => {
            let c = values.pop().unwrap();
            let b = values.pop().unwrap();
            let a = values.pop().unwrap();
            Operands::Three(a, b, c)
        }
    }
}

/// Notes that the operands of a tree are to be gone into, in order, and its node to be made then.
#[tactic(auto, using(crate::proofs::BuildLemmas::enterings))]
fn enter<'a>(tasks: &mut Vec<Task<'a>>, e: &'a Expr) -> Result<(), AllocError>
    ensures { OnOk result (from_top tasks.new.items [] ≡ entering e.now ++ from_top tasks.old.items []) }
{
    tasks.push(Task::Leave(e))?;
    match e {
        Expr::Const(_) | Expr::Field(_) | Expr::Pc | Expr::Reg(_, None) => {}
        Expr::Reg(_, Some(a))
        | Expr::Mem(a, _)
        | Expr::Unary(_, a)
        | Expr::Cast(_, _, a)
        | Expr::Slice(a, _, _) => tasks.push(Task::Enter(a.get()))?,
        Expr::Binary(_, a, b) | Expr::Join(a, b) => {
            tasks.push(Task::Enter(b.get()))?;
            tasks.push(Task::Enter(a.get()))?;
        }
        Expr::If(c, a, b) => {
            tasks.push(Task::Enter(b.get()))?;
            tasks.push(Task::Enter(a.get()))?;
            tasks.push(Task::Enter(c.get()))?;
        }
    }
    Ok(())
}

/// Makes the node of a tree over the last values, which stand for its operands.
fn leave(graph: &mut Graph, values: &mut Vec<u32>, e: &Expr) -> Result<(), AllocError>
    requires typed { IsTrue (is_typed graph.old.isa e.now) }
    requires operands { (rest : List Tree) × StandAll graph.old.nodes values.old.items (rest ++ operands_of e.now) }
    ensures extends { OnOk result (Extends graph.old graph.new) }
    ensures stand { OnOk result ((rest : List Tree) → StandAll graph.old.nodes values.old.items (rest ++ operands_of e.now)
        → StandAll graph.new.nodes values.new.items (rest ++ e.now ∷ [])) }
{
    let (op, count) = operator(e);
    let args = pop_operands(values, count);
    let n = graph.add_or_refuse(Node { op, args })?;
    values.push(n)?;
    Ok(())
}

/// The node of a tree.
pub fn add_tree(graph: &mut Graph, alloc: Global, e: &Expr) -> Result<u32, AllocError>
    requires { IsTrue (is_typed graph.old.isa e.now) }
    ensures tree { IfOk result (λ n. IsTree graph.new.nodes n e.now) }
    ensures extends { OnOk result (Extends graph.old graph.new) }
{
    let mut tasks = Vec::new(alloc);
    let mut values = Vec::new(alloc);
    tasks.push(Task::Enter(e))?;
    while let Some(task) = tasks.pop() {
        match task {
            Task::Enter(e) => enter(&mut tasks, e)?,
            Task::Leave(e) => leave(graph, &mut values, e)?,
        }
    }
    Ok(values.pop().unwrap())
}
