//! Decoders of descriptions with instructions.
ghost use Rattle.std.specs.Prelude.{◌≡◌, ◌+◌, ◌-◌, ◌<◌, ◌≤◌, ◌∷◌, [], None, length, slice_get, IsTrue, IfOk};
ghost use Rattle.std.specs.List.{list_all};
ghost use Rattle.std.specs.Option.{option_map_or};
ghost use Rattle.vg_isa.specs.declared.isa.Parts.{Parts as TheParts};
ghost use Rattle.vg_isa.specs.declared.format.FieldDecl.{FieldDecl as Field};
ghost use Rattle.vg_isa.specs.declared.format.Format.{Format as TheFormat};
ghost use Rattle.vg_isa.specs.Accepted.{is_format, is_instr, is_machine_width};

use super::*;
use sqlite_items::Items;
use std::alloc::{AllocError, Global};
use std::test::Fail;
use vg_bits::{Bits, Width};
use vg_isa::{FieldDecl, FieldId, Format, FormatId, Instr, InstrId, Isa, Parts, PcDecl};

/// The field of the format with this index.
fn field_at(index: u32) -> FieldId
    ensures { result ≡ record { format = record { 0 = 0 }; index = index } }
{
    FieldId {
        format: FormatId(0),
        index,
    }
}

/// A field of one range.
fn declared(alloc: Global, high: u8, low: u8) -> Result<FieldDecl, AllocError>
    ensures { IfOk result (λ f. f.ranges ≡ (high, low) ∷ []) }
{
    Ok(FieldDecl {
        name: Items::from_slice(alloc, b"f")?,
        ranges: Items::from_slice(alloc, &[(high, low)])?,
    })
}

/// A format whose first field has the lowest nine bits, and whose second the others.
fn format(alloc: Global, word: u8) -> Result<Format, AllocError>
    requires { IsTrue (is_machine_width word) }
    ensures covered { IfOk result (λ f. IsTrue (is_format word f)) }
    ensures low { IfOk result (λ f. option_map_or (λ (x : Field). x.ranges) (slice_get f.fields 0) [] ≡ (8, 0) ∷ []) }
    ensures high { IfOk result (λ f. option_map_or (λ (x : Field). x.ranges) (slice_get f.fields 1) []
        ≡ (word - 1, 9) ∷ []) }
{
    let fields = vec![in alloc; declared(alloc, 8, 0)?, declared(alloc, word - 1, 9)?]?;
    Ok(Format {
        name: Items::from_slice(alloc, b"F")?,
        fields: Items::from_vec(fields),
    })
}

/// An instruction that does nothing, whose encoding fixes these fields.
fn idle(alloc: Global, fixed: &[(FieldId, Bits)]) -> Result<Instr, AllocError>
    ensures { IfOk result (λ i. i ≡ record {
      name = 73 ∷ [];
      format = record { 0 = 0 };
      fixed = fixed.now;
      writes = [];
      next = None;
      template = None;
      next_spots = None;
      read_spot = None;
    }) }
{
    Ok(Instr {
        name: Items::from_slice(alloc, b"I")?,
        format: FormatId(0),
        fixed: Items::from_slice(alloc, fixed)?,
        writes: Items::new(alloc),
        next: None,
        template: None,
        next_spots: None,
        read_spot: None,
    })
}

/// A description of one format and these instructions.
#[tactic(auto, unfolding(vg_isa::specs::Accepted::is_isa))]
fn description(
    alloc: Global,
    word: u8,
    format: Format,
    instrs: Vec<Instr>,
) -> Result<Isa, AllocError>
    requires word { IsTrue (is_machine_width word) }
    requires format { IsTrue (is_format word format) }
    requires few { length instrs.items ≤ 512 }
    requires instrs { (d : TheParts) → d.formats ≡ format ∷ [] → IsTrue (list_all (is_instr d) instrs.items) }
{
    let parts = Parts {
        name: Items::from_slice(alloc, b"T")?,
        word: Width::of(word),
        pc: PcDecl {
            name: Items::from_slice(alloc, b"PC")?,
            width: Width::of(32),
        },
        memory: Items::from_slice(alloc, b"MEM")?,
        regs: Items::new(alloc),
        formats: Items::from_vec(vec![in alloc; format]?),
        instrs: Items::from_vec(instrs),
        abi: None,
        micro: None,
    };
    Ok(Isa::new(parts))
}

/// What the decoder of a description finds for a word.
fn found(alloc: Global, isa: &Isa, word: u64) -> Result<Option<InstrId>, BuildFault> {
    let decoder = build(alloc, isa)?;
    Ok(decoder.find(Bits::cut_to(isa.word(), u128::from(word))))
}

/// One instruction, which fixes nothing.
fn free(alloc: Global, width: u8) -> Result<Isa, AllocError>
    requires { IsTrue (is_machine_width width) }
{
    let instrs = vec![in alloc; idle(alloc, &[])?]?;
    description(alloc, width, format(alloc, width)?, instrs)
}

/// One instruction fixes the lowest bits to 5, and another those above to 3.
fn crossing(alloc: Global, width: u8) -> Result<Isa, AllocError>
    requires { IsTrue (is_machine_width width) }
{
    let low = (field_at(0), Bits::of(Width::of(9), 5));
    let high = (field_at(1), Bits::of(Width::of(width - 9), 3));
    let instrs = vec![in alloc; idle(alloc, &[low])?, idle(alloc, &[high])?]?;
    description(alloc, width, format(alloc, width)?, instrs)
}

/// As many instructions as there may be, the k-th with k in its lowest bits.
fn numbered(alloc: Global) -> Result<Vec<Instr>, AllocError>
    ensures few { IfOk result (λ is. length is.items ≤ 512) }
    ensures kept { IfOk result (λ is. (d : TheParts) (f : TheFormat) → d.formats ≡ f ∷ []
        → option_map_or (λ (x : Field). x.ranges) (slice_get f.fields 0) [] ≡ (8, 0) ∷ []
        → IsTrue (list_all (is_instr d) is.items)) }
{
    let mut instrs = Vec::new(alloc);
    for k in 0..512 {
        let low = (field_at(0), Bits::of(Width::of(9), k));
        instrs.push(idle(alloc, &[low])?)?;
    }
    Ok(instrs)
}

/// A description of these.
fn many(alloc: Global, width: u8) -> Result<Isa, AllocError>
    requires { IsTrue (is_machine_width width) }
{
    description(alloc, width, format(alloc, width)?, numbered(alloc)?)
}

#[test]
fn no_fixed_field(rt: HostRuntime) -> Result<(), Fail> {
    let isa = free(rt.alloc(), 16)?;
    assert_eq!(rt; found(rt.alloc(), &isa, 0), Ok(Some(InstrId(0))));
    let isa = free(rt.alloc(), 64)?;
    assert_eq!(rt; found(rt.alloc(), &isa, u64::MAX), Ok(Some(InstrId(0))));
    Ok(())
}

#[test]
fn one_word_shared(rt: HostRuntime) -> Result<(), Fail> {
    for width in [16, 32, 64] {
        let isa = crossing(rt.alloc(), width)?;
        let overlap = BuildFault::Overlap {
            a: InstrId(0),
            b: InstrId(1),
            word: Bits::of(Width::of(width), 0x605),
        };
        assert_eq!(rt; found(rt.alloc(), &isa, 0), Err(overlap));
    }
    Ok(())
}

#[test]
fn as_many_instructions_as_there_may_be(rt: HostRuntime) -> Result<(), Fail> {
    let isa = many(rt.alloc(), 16)?;
    assert_eq!(rt; found(rt.alloc(), &isa, 0xfe05), Ok(Some(InstrId(5))));
    let isa = many(rt.alloc(), 64)?;
    assert_eq!(rt;
        found(rt.alloc(), &isa, 0x1234_5678_9abc_dfff),
        Ok(Some(InstrId(511)))
    );
    Ok(())
}
