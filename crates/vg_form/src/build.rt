//! The description of a form. `F7` to `OP` are the places of the fields in its one format.

ghost use Rattle.std.specs.Prelude.{◌≡◌, ◌≤◌, ◌∷◌, [], length, map, IfOk, IsTrue};
ghost use Rattle.std.specs.List.{list_all};
ghost use Rattle.vg_form.specs.Form.{field_at, field_decl, fields_r, format_r, register_of, value_tree, write_of, fits_fields, fixed_of, instr_of, register_file, parts_of};

use crate::form::{Behaviour, Form, Pair};
use sqlite_items::{Boxed, Items};
use std::alloc::{AllocError, Global};
use vg_bits::{Bits, Width};
use vg_isa::{
    BinOp, CastOp, Expr, FieldDecl, FieldId, Format, FormatId, Instr, Isa, Parts, PcDecl, RegDecl,
    RegId, ResourceId, Text, Write,
};

const F7: u32 = 0;

const RS2: u32 = 1;

const RS1: u32 = 2;

const F3: u32 = 3;

const RD: u32 = 4;

const OP: u32 = 5;

/// The field at a place of the one format.
fn field_at(index: u32) -> FieldId
    ensures { result ≡ field_at index }
{
    FieldId {
        format: FormatId(0),
        index,
    }
}

/// Bytes as a text.
fn text(alloc: Global, bytes: &[u8]) -> Result<Text, AllocError>
    ensures { IfOk result (λ text. text ≡ bytes.now) }
{
    Items::from_slice(alloc, bytes)
}

/// A field of one range of bits.
fn field_decl(alloc: Global, name: &[u8], high: u8, low: u8) -> Result<FieldDecl, AllocError>
    ensures { IfOk result (λ decl. decl ≡ field_decl name.now high low) }
{
    let name = text(alloc, name)?;
    let ranges = Items::from_slice(alloc, &[(high, low)])?;
    Ok(FieldDecl { name, ranges })
}

fn fields(alloc: Global) -> Result<Items<FieldDecl>, AllocError>
    ensures { IfOk result (λ fields. fields ≡ fields_r) }
{
    let fields = vec![in alloc;
        field_decl(alloc, b"f7", 31, 25)?,
        field_decl(alloc, b"rs2", 24, 20)?,
        field_decl(alloc, b"rs1", 19, 15)?,
        field_decl(alloc, b"f3", 14, 12)?,
        field_decl(alloc, b"rd", 11, 7)?,
        field_decl(alloc, b"op", 6, 0)?,
    ]?;
    Ok(Items::from_vec(fields))
}

fn format(alloc: Global) -> Result<Format, AllocError>
    ensures { IfOk result (λ format. format ≡ format_r) }
{
    let name = text(alloc, b"R")?;
    let fields = fields(alloc)?;
    Ok(Format { name, fields })
}

/// The register that a field names.
fn register(alloc: Global, index: u32) -> Result<Expr, AllocError>
    ensures { IfOk result (λ tree. tree ≡ register_of index) }
{
    let field = Boxed::new(alloc, Expr::Field(field_at(index)))?;
    Ok(Expr::Reg(RegId(0), Some(field)))
}

/// A field at the width of the registers.
fn extended(alloc: Global, index: u32) -> Result<Expr, AllocError>
    ensures { IfOk result (λ tree. tree ≡ Expr.Cast CastOp.Extend 32 (Expr.Field (field_at index))) }
{
    let field = Boxed::new(alloc, Expr::Field(field_at(index)))?;
    Ok(Expr::Cast(CastOp::Extend, Width::of(32), field))
}

/// The sum of two trees.
fn sum(alloc: Global, left: Expr, right: Expr) -> Result<Expr, AllocError>
    ensures { IfOk result (λ tree. tree ≡ Expr.Binary BinOp.Add left right) }
{
    let left = Boxed::new(alloc, left)?;
    let right = Boxed::new(alloc, right)?;
    Ok(Expr::Binary(BinOp::Add, left, right))
}

/// What a behaviour computes.
fn value(alloc: Global, behaviour: Behaviour) -> Result<Expr, AllocError>
    ensures { IfOk result (λ tree. tree ≡ value_tree behaviour) }
{
    let left = register(alloc, RS1)?;
    match behaviour {
        Behaviour::AddRegisters => sum(alloc, left, register(alloc, RS2)?),
        Behaviour::AddField => sum(alloc, left, extended(alloc, RS2)?),
    }
}

/// The write of a behaviour's value to the register that `rd` names.
fn write(alloc: Global, behaviour: Behaviour) -> Result<Write, AllocError>
    ensures { IfOk result (λ write. write ≡ write_of behaviour) }
{
    Ok(Write {
        resource: ResourceId::Reg(RegId(0)),
        guard: Expr::Const(Bits::of(Width::of(1), 1)),
        at: Some(Expr::Field(field_at(RD))),
        value: value(alloc, behaviour)?,
        guard_spot: None,
        at_spot: None,
        value_spot: 0,
    })
}

/// The fields that an encoding fixes.
fn fixed(alloc: Global, pair: &Pair) -> Result<Items<(FieldId, Bits)>, AllocError>
    requires { IsTrue (fits_fields pair.now) }
    ensures { IfOk result (λ fixed. fixed ≡ fixed_of pair.now) }
{
    let f7 = Bits::of(Width::of(7), u128::from(pair.f7));
    let f3 = Bits::of(Width::of(3), u128::from(pair.f3));
    let op = Bits::of(Width::of(7), u128::from(pair.op));
    Items::from_slice(
        alloc,
        &[(field_at(F7), f7), (field_at(F3), f3), (field_at(OP), op)],
    )
}

fn instr(alloc: Global, pair: &Pair) -> Result<Instr, AllocError>
    requires { IsTrue (fits_fields pair.now) }
    ensures { IfOk result (λ instr. instr ≡ instr_of pair.now) }
{
    let writes = vec![in alloc; write(alloc, pair.behaviour)?]?;
    Ok(Instr {
        name: text(alloc, pair.name.as_slice())?,
        format: FormatId(0),
        fixed: fixed(alloc, pair)?,
        writes: Items::from_vec(writes),
        next: None,
        template: None,
        next_spots: None,
        read_spot: None,
    })
}

fn instrs(alloc: Global, pairs: &[Pair]) -> Result<Items<Instr>, AllocError>
    requires { IsTrue (list_all fits_fields pairs.now) }
    ensures { IfOk result (λ instrs. instrs ≡ map instr_of pairs.now) }
{
    let mut instrs = Items::new(alloc);
    for pair in pairs {
        instrs.push(instr(alloc, pair)?)?;
    }
    Ok(instrs)
}

/// The one register file.
fn registers(alloc: Global) -> Result<Items<RegDecl>, AllocError>
    ensures { IfOk result (λ regs. regs ≡ register_file ∷ []) }
{
    let file = RegDecl {
        name: text(alloc, b"X")?,
        index: Some(Width::of(5)),
        width: Width::of(32),
        zero: Some(0),
    };
    let regs = vec![in alloc; file]?;
    Ok(Items::from_vec(regs))
}

fn formats(alloc: Global) -> Result<Items<Format>, AllocError>
    ensures { IfOk result (λ formats. formats ≡ format_r ∷ []) }
{
    let formats = vec![in alloc; format(alloc)?]?;
    Ok(Items::from_vec(formats))
}

fn parts(alloc: Global, form: &Form) -> Result<Parts, AllocError>
    requires { IsTrue (list_all fits_fields form.now.pairs) }
    ensures { IfOk result (λ parts. parts ≡ parts_of form.now) }
{
    Ok(Parts {
        name: text(alloc, form.name.as_slice())?,
        word: Width::of(32),
        pc: PcDecl {
            name: text(alloc, b"PC")?,
            width: Width::of(32),
        },
        memory: text(alloc, b"MEM")?,
        regs: registers(alloc)?,
        formats: formats(alloc)?,
        instrs: instrs(alloc, form.pairs.as_slice())?,
        abi: None,
        micro: None,
    })
}

/// The description of a form.
pub(crate) fn isa_of_form(alloc: Global, form: &Form) -> Result<Isa, AllocError>
    requires fit { IsTrue (list_all fits_fields form.now.pairs) }
    requires few { length form.now.pairs ≤ 512 }
    ensures { IfOk result (λ isa. isa ≡ parts_of form.now) }
{
    let parts = parts(alloc, form)?;
    Ok(Isa::new(parts))
}
