//! Whether two trees of a processor are the same.
ghost use Rattle.std.specs.Prelude.{◌≡◌, ◌↔◌, ◌&&◌, IsTrue};
ghost use Rattle.vg_isa.specs.Same.{same_tree as same_tree_of};
ghost use Rattle.vg_tree.specs.SameTree.{binary_number};

use sqlite_items::Boxed;
use vg_bits::Bits;
use vg_isa::{BinOp, CastOp, Expr, FieldId, UnOp};

fn same_bits(a: Bits, b: Bits) -> bool
    ensures { IsTrue result ↔ (a ≡ b) }
{
    a.width().bits() == b.width().bits() && a.value() == b.value()
}

fn same_field(f: FieldId, g: FieldId) -> bool
    ensures { IsTrue result ↔ (f ≡ g) }
{
    f.format.0 == g.format.0 && f.index == g.index
}

fn same_unary(a: UnOp, b: UnOp) -> bool
    ensures { IsTrue result ↔ (a ≡ b) }
{
    match a {
        UnOp::Not => matches!(b, UnOp::Not),
        UnOp::Neg => matches!(b, UnOp::Neg),
    }
}

fn same_cast(a: CastOp, b: CastOp) -> bool
    ensures { IsTrue result ↔ (a ≡ b) }
{
    match a {
        CastOp::Extend => matches!(b, CastOp::Extend),
        CastOp::SignExtend => matches!(b, CastOp::SignExtend),
        CastOp::Cut => matches!(b, CastOp::Cut),
        CastOp::Keep => matches!(b, CastOp::Keep),
    }
}

/// The place of an operator in the list of all.
fn number(op: BinOp) -> u8
    ensures { result ≡ binary_number op }
{
    match op {
        BinOp::Add => 0,
        BinOp::Sub => 1,
        BinOp::Mul => 2,
        BinOp::MulLong { signed: false } => 3,
        BinOp::MulLong { signed: true } => 4,
        BinOp::Udiv => 5,
        BinOp::Sdiv => 6,
        BinOp::Urem => 7,
        BinOp::Srem => 8,
        BinOp::And => 9,
        BinOp::Or => 10,
        BinOp::Xor => 11,
        BinOp::Shl => 12,
        BinOp::Shr => 13,
        BinOp::Sar => 14,
        BinOp::Eq => 15,
        BinOp::Lt => 16,
        BinOp::Slt => 17,
    }
}

#[tactic(auto, using(crate::proofs::SameLemmas::same_binary))]
fn same_binary(a: BinOp, b: BinOp) -> bool
    ensures { IsTrue result ↔ (a ≡ b) }
{
    number(a) == number(b)
}

fn both(a: bool, b: bool) -> bool
    ensures { result ≡ (a && b) }
{
    a && b
}

/// Whether two trees have the same operators over the same operands.
#[cycle(same)]
#[tactic(auto, using(crate::proofs::SameLemmas::same_steps))]
fn same(a: &Expr, b: &Expr) -> bool
    ensures { IsTrue result ↔ (a.now ≡ b.now) }
{
    match a {
        Expr::Const(x) => match b {
            Expr::Const(y) => same_bits(*x, *y),
            _ => false,
        },
        Expr::Field(x) => match b {
            Expr::Field(y) => same_field(*x, *y),
            _ => false,
        },
        Expr::Pc => match b {
            Expr::Pc => true,
            _ => false,
        },
        Expr::Reg(x, i) => match b {
            Expr::Reg(y, j) => both(x.0 == y.0, same_index(i, j)),
            _ => false,
        },
        Expr::Mem(x, n) => match b {
            Expr::Mem(y, m) => both(*n == *m, same(x.get(), y.get())),
            _ => false,
        },
        Expr::Unary(f, x) => match b {
            Expr::Unary(g, y) => both(same_unary(*f, *g), same(x.get(), y.get())),
            _ => false,
        },
        Expr::Binary(f, x, u) => match b {
            Expr::Binary(g, y, v) => both(
                same_binary(*f, *g),
                both(same(x.get(), y.get()), same(u.get(), v.get())),
            ),
            _ => false,
        },
        Expr::Cast(f, v, x) => match b {
            Expr::Cast(g, w, y) => both(
                both(same_cast(*f, *g), v.bits() == w.bits()),
                same(x.get(), y.get()),
            ),
            _ => false,
        },
        Expr::Slice(x, g, k) => match b {
            Expr::Slice(y, h, l) => both(both(*g == *h, *k == *l), same(x.get(), y.get())),
            _ => false,
        },
        Expr::Join(x, u) => match b {
            Expr::Join(y, v) => both(same(x.get(), y.get()), same(u.get(), v.get())),
            _ => false,
        },
        Expr::If(c, x, u) => match b {
            Expr::If(d, y, v) => both(
                same(c.get(), d.get()),
                both(same(x.get(), y.get()), same(u.get(), v.get())),
            ),
            _ => false,
        },
    }
}

#[cycle(same)]
fn same_index(a: &Option<Boxed<Expr>>, b: &Option<Boxed<Expr>>) -> bool
    ensures { IsTrue result ↔ (a.now ≡ b.now) }
{
    match a {
        None => match b {
            None => true,
            Some(_) => false,
        },
        Some(x) => match b {
            None => false,
            Some(y) => same(x.get(), y.get()),
        },
    }
}

/// Whether two trees are the same, operator by operator and operand by operand.
#[tactic(auto, using(crate::proofs::SameLemmas::same_told))]
pub fn same_tree(a: &Expr, b: &Expr) -> bool
    ensures { result ≡ same_tree_of a.now b.now }
{
    same(a, b)
}
