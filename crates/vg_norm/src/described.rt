//! A description whose one instruction sets the program counter to (PC + 4) * (4 + PC).
ghost use Rattle.std.specs.Prelude.{◌≡◌, ◌∷◌, [], Some, length, IfOk};
ghost use Rattle.vg_bits.specs.BitValue.{BitValue};
ghost use Rattle.vg_isa.specs.declared.expr.Expr.TheVariants as tree;
ghost use Rattle.vg_isa.specs.declared.operator.BinOp.TheVariants as kind;

use sqlite_items::{Boxed, Items};
use std::alloc::{AllocError, Global};
use vg_bits::{Bits, Width};
use vg_isa::{BinOp, Expr, FieldDecl, Format, FormatId, Instr, Isa, Parts, PcDecl};

/// Four, in 32 bits.
fn four() -> Expr
    ensures { result ≡ tree.Const (record { width = 32; number = 4 }) }
{
    Expr::Const(Bits::of(Width::of(32), 4))
}

fn binary(alloc: Global, op: BinOp, a: Expr, b: Expr) -> Result<Expr, AllocError>
    ensures { IfOk result (λ e. e ≡ tree.Binary op a b) }
{
    let a = Boxed::new(alloc, a)?;
    let b = Boxed::new(alloc, b)?;
    Ok(Expr::Binary(op, a, b))
}

/// (PC + 4) * (4 + PC)
fn product(alloc: Global) -> Result<Expr, AllocError>
    ensures { IfOk result (λ e. e ≡ tree.Binary kind.Mul
        (tree.Binary kind.Add tree.Pc (tree.Const (record { width = 32; number = 4 })))
        (tree.Binary kind.Add (tree.Const (record { width = 32; number = 4 })) tree.Pc)) }
{
    let a = binary(alloc, BinOp::Add, Expr::Pc, four())?;
    let b = binary(alloc, BinOp::Add, four(), Expr::Pc)?;
    binary(alloc, BinOp::Mul, a, b)
}

/// The instruction. Its program counter is always written.
fn instruction(alloc: Global) -> Result<Instr, AllocError>
    ensures { IfOk result (λ i. i ≡ record {
      name = 73 ∷ [];
      format = record { 0 = 0 };
      fixed = [];
      writes = [];
      next = Some (
        tree.Const (record { width = 1; number = 1 }),
        tree.Binary kind.Mul
            (tree.Binary kind.Add tree.Pc (tree.Const (record { width = 32; number = 4 })))
            (tree.Binary kind.Add (tree.Const (record { width = 32; number = 4 })) tree.Pc),
      );
      template = None;
      next_spots = None;
      read_spot = None;
    }) }
{
    let value = product(alloc)?;
    Ok(Instr {
        name: Items::from_slice(alloc, b"I")?,
        format: FormatId(0),
        fixed: Items::new(alloc),
        writes: Items::new(alloc),
        next: Some((Expr::Const(Bits::of(Width::of(1), 1)), value)),
        template: None,
        next_spots: None,
        read_spot: None,
    })
}

/// A format of one field.
fn format(alloc: Global) -> Result<Format, AllocError>
    ensures { IfOk result (λ f. f ≡ record {
      name = 70 ∷ [];
      fields = (record { name = 102 ∷ []; ranges = (31, 0) ∷ [] }) ∷ [];
    }) }
{
    let field = FieldDecl {
        name: Items::from_slice(alloc, b"f")?,
        ranges: Items::from_slice(alloc, &[(31, 0)])?,
    };
    Ok(Format {
        name: Items::from_slice(alloc, b"F")?,
        fields: Items::from_vec(vec![in alloc; field]?),
    })
}

/// The description.
pub fn description(alloc: Global) -> Result<Isa, AllocError>
    ensures one { IfOk result (λ isa. length isa.instrs ≡ 1) }
    ensures word { IfOk result (λ isa. isa.word ≡ 32) }
    ensures address { IfOk result (λ isa. isa.pc.width ≡ 32) }
{
    let parts = Parts {
        name: Items::from_slice(alloc, b"T")?,
        word: Width::of(32),
        pc: PcDecl {
            name: Items::from_slice(alloc, b"PC")?,
            width: Width::of(32),
        },
        memory: Items::from_slice(alloc, b"MEM")?,
        regs: Items::new(alloc),
        formats: Items::from_vec(vec![in alloc; format(alloc)?]?),
        instrs: Items::from_vec(vec![in alloc; instruction(alloc)?]?),
        abi: None,
        micro: None,
    };
    Ok(Isa::new(parts))
}
