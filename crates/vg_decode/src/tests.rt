ghost use Rattle.std.specs.Prelude.{◌≡◌, ◌≤◌, ◌<◌, ◌^◌, ◌∷◌, [], length, slice_get, IsTrue, IfOk};
ghost use Rattle.std.specs.List.{list_all};
ghost use Rattle.std.specs.Option.{option_map_or};
ghost use Rattle.vg_isa.specs.declared.format.FieldDecl.{FieldDecl as Field};
ghost use Rattle.vg_isa.specs.Accepted.{is_format, is_machine_width};

use super::*;
use crate::candidate::Candidate;
use crate::growing::grow;
use crate::pairs::first_pair;
use crate::tree::{Tree, find_in};
use sqlite_items::Items;
use std::alloc::{AllocError, Global};
use std::test::Fail;
use vg_bits::{Bits, Width};
use vg_format::{Pattern, field, with_field};
use vg_isa::{FieldDecl, FieldId, Format, FormatId, InstrId, Isa, Parts, PcDecl};

/// How many nodes a tree has.
fn nodes(tree: &Tree) -> u64 {
    match tree {
        Tree::Leaf(_) => 1,
        Tree::Test(_, none, some) => {
            let below = nodes(none.get()).saturating_add(nodes(some.get()));
            below.saturating_add(1)
        }
    }
}

/// How many tests lie above the deepest leaf.
fn depth(tree: &Tree) -> u64 {
    match tree {
        Tree::Leaf(_) => 0,
        Tree::Test(_, none, some) => depth(none.get()).max(depth(some.get())).saturating_add(1),
    }
}

/// Candidates with these patterns, given by mask and value.
fn with_patterns(alloc: Global, patterns: &[(u64, u64)]) -> Result<Vec<Candidate>, AllocError> {
    let mut candidates = Vec::new(alloc);
    for (k, (mask, value)) in (0u32..).zip(patterns) {
        candidates.push(Candidate {
            instr: InstrId(k),
            pattern: Pattern {
                mask: *mask,
                value: *value,
            },
        })?;
    }
    Ok(candidates)
}

/// The pattern of the `k`-th of 512 instructions of words of this width.
fn pattern_at(width: u8, k: u32) -> Pattern {
    let k = u64::from(k);
    match width {
        16 => Pattern {
            mask: 0x1ff,
            value: k & 0x1ff,
        },
        32 => Pattern {
            mask: 0xf000707f,
            value: 3 | (k & 3) << 5 | (k >> 2 & 7) << 12 | (k >> 5 & 15) << 28,
        },
        _ => Pattern {
            mask: 0x1ff << 55,
            value: (k & 0x1ff) << 55,
        },
    }
}

/// 512 candidates of words of this width.
fn many(alloc: Global, width: u8) -> Result<Vec<Candidate>, AllocError> {
    let mut candidates = Vec::new(alloc);
    for k in 0..512 {
        candidates.push(Candidate {
            instr: InstrId(k),
            pattern: pattern_at(width, k),
        })?;
    }
    Ok(candidates)
}

/// The encodings of RV32IM without those of environment calls and fences.
const RV32IM: [(u64, u64); 45] = [
    (0x7f, 0x37),
    (0x7f, 0x17),
    (0x7f, 0x6f),
    (0x707f, 0x67),
    (0x707f, 0x63),
    (0x707f, 0x1063),
    (0x707f, 0x4063),
    (0x707f, 0x5063),
    (0x707f, 0x6063),
    (0x707f, 0x7063),
    (0x707f, 0x03),
    (0x707f, 0x1003),
    (0x707f, 0x2003),
    (0x707f, 0x4003),
    (0x707f, 0x5003),
    (0x707f, 0x23),
    (0x707f, 0x1023),
    (0x707f, 0x2023),
    (0x707f, 0x13),
    (0x707f, 0x2013),
    (0x707f, 0x3013),
    (0x707f, 0x4013),
    (0x707f, 0x6013),
    (0x707f, 0x7013),
    (0xfe00707f, 0x1013),
    (0xfe00707f, 0x5013),
    (0xfe00707f, 0x40005013),
    (0xfe00707f, 0x33),
    (0xfe00707f, 0x40000033),
    (0xfe00707f, 0x1033),
    (0xfe00707f, 0x2033),
    (0xfe00707f, 0x3033),
    (0xfe00707f, 0x4033),
    (0xfe00707f, 0x5033),
    (0xfe00707f, 0x40005033),
    (0xfe00707f, 0x6033),
    (0xfe00707f, 0x7033),
    (0xfe00707f, 0x2000033),
    (0xfe00707f, 0x2001033),
    (0xfe00707f, 0x2002033),
    (0xfe00707f, 0x2003033),
    (0xfe00707f, 0x2004033),
    (0xfe00707f, 0x2005033),
    (0xfe00707f, 0x2006033),
    (0xfe00707f, 0x2007033),
];

#[test]
fn rv32im(rt: HostRuntime) -> Result<(), Fail> {
    let candidates = with_patterns(rt.alloc(), &RV32IM)?;
    assert!(rt; first_pair(candidates.as_slice()).is_none());
    let tree = grow(rt.alloc(), candidates.as_slice(), 64)?;
    assert!(rt; nodes(&tree) <= 113);
    assert!(rt; depth(&tree) <= 8);
    assert_eq!(rt; find_in(&tree, 0x00500093), Some(InstrId(18)));
    assert_eq!(rt; find_in(&tree, 0x0200c1b3), Some(InstrId(41)));
    assert_eq!(rt; find_in(&tree, 0x73), None);
    Ok(())
}

#[test]
fn as_many_as_there_may_be(rt: HostRuntime) -> Result<(), Fail> {
    for width in [16u8, 32, 64] {
        let candidates = many(rt.alloc(), width)?;
        assert!(rt; first_pair(candidates.as_slice()).is_none());
        let tree = grow(rt.alloc(), candidates.as_slice(), 64)?;
        assert!(rt; nodes(&tree) <= 1023);
        assert!(rt; depth(&tree) <= 9);
        for candidate in candidates.as_slice() {
            let Pattern { mask, value } = candidate.pattern;
            assert_eq!(rt; find_in(&tree, value), Some(candidate.instr));
            assert_eq!(rt; find_in(&tree, value | !mask), Some(candidate.instr));
        }
    }
    Ok(())
}

#[test]
fn one_shared_word(rt: HostRuntime) -> Result<(), Fail> {
    let patterns = [
        (0x8000_00ff, 0x8000_0001),
        (0xffff_0000, 0x1234_0000),
        (0x0000_ffff, 0x0000_5678),
    ];
    let candidates = with_patterns(rt.alloc(), &patterns)?;
    let pair = first_pair(candidates.as_slice());
    assert!(rt; pair.is_some_and(|p| (p.a.0, p.b.0, p.word) == (1, 2, 0x1234_5678)));
    Ok(())
}

#[test]
fn three_and_no_bit_fixed_by_all(rt: HostRuntime) -> Result<(), Fail> {
    let candidates = with_patterns(
        rt.alloc(),
        &[(0b011, 0b001), (0b110, 0b010), (0b101, 0b100)],
    )?;
    assert!(rt; first_pair(candidates.as_slice()).is_none());
    let tree = grow(rt.alloc(), candidates.as_slice(), 64)?;
    assert_eq!(rt; find_in(&tree, 0b101), Some(InstrId(0)));
    assert_eq!(rt; find_in(&tree, 0b010), Some(InstrId(1)));
    assert_eq!(rt; find_in(&tree, 0b100), Some(InstrId(2)));
    assert_eq!(rt; find_in(&tree, 0b111), None);
    Ok(())
}

#[test]
fn no_fixed_bit(rt: HostRuntime) -> Result<(), Fail> {
    let candidates = with_patterns(rt.alloc(), &[(0, 0)])?;
    assert!(rt; first_pair(candidates.as_slice()).is_none());
    let tree = grow(rt.alloc(), candidates.as_slice(), 64)?;
    assert_eq!(rt; find_in(&tree, 0), Some(InstrId(0)));
    assert_eq!(rt; find_in(&tree, u64::MAX), Some(InstrId(0)));
    Ok(())
}

/// A description of these formats, without instructions.
#[tactic(auto, unfolding(vg_isa::specs::Accepted::is_isa))]
fn description(alloc: Global, word: u8, formats: Vec<Format>) -> Result<Isa, AllocError>
    requires word { IsTrue (is_machine_width word) }
    requires formats { IsTrue (list_all (is_format word) formats.items) }
    requires few { length formats.items ≤ 64 }
    ensures { IfOk result (λ isa. (isa.word ≡ word) × (isa.formats ≡ formats.items)) }
{
    let parts = Parts {
        name: Items::from_slice(alloc, b"T")?,
        word: Width::of(word),
        pc: PcDecl {
            name: Items::from_slice(alloc, b"PC")?,
            width: Width::of(32),
        },
        memory: Items::from_slice(alloc, b"MEM")?,
        regs: Items::new(alloc),
        formats: Items::from_vec(formats),
        instrs: Items::new(alloc),
        abi: None,
        micro: None,
    };
    Ok(Isa::new(parts))
}

/// What is found for a word of no instruction.
fn found_of_none(alloc: Global, word: u8) -> Result<Option<InstrId>, BuildFault>
    requires { IsTrue (is_machine_width word) }
{
    let isa = description(alloc, word, Vec::new(alloc))?;
    let decoder = build(alloc, &isa)?;
    Ok(decoder.find(Bits::of(Width::of(word), 0)))
}

#[test]
fn no_instruction(rt: HostRuntime) -> Result<(), Fail> {
    assert_eq!(rt; found_of_none(rt.alloc(), 16), Ok(None));
    assert_eq!(rt; found_of_none(rt.alloc(), 32), Ok(None));
    assert_eq!(rt; found_of_none(rt.alloc(), 64), Ok(None));
    Ok(())
}

/// A field with these ranges.
fn declared(alloc: Global, ranges: &[(u8, u8)]) -> Result<FieldDecl, AllocError>
    ensures { IfOk result (λ f. f.ranges ≡ ranges.now) }
{
    Ok(FieldDecl {
        name: Items::from_slice(alloc, b"f")?,
        ranges: Items::from_slice(alloc, ranges)?,
    })
}

/// The format of branches: its immediate has four ranges, which stand between the other fields.
fn branches(alloc: Global) -> Result<Format, AllocError>
    ensures covered { IfOk result (λ f. IsTrue (is_format 32 f)) }
    ensures first { IfOk result (λ f. option_map_or (λ (x : Field). x.ranges) (slice_get f.fields 0) [] ≡ (31, 31) ∷ (7, 7) ∷ (30, 25) ∷ (11, 8) ∷ []) }
{
    let fields = vec![in alloc;
        declared(alloc, &[(31, 31), (7, 7), (30, 25), (11, 8)])?,
        declared(alloc, &[(24, 20)])?,
        declared(alloc, &[(19, 15)])?,
        declared(alloc, &[(14, 12)])?,
        declared(alloc, &[(6, 0)])?,
    ]?;
    Ok(Format {
        name: Items::from_slice(alloc, b"B")?,
        fields: Items::from_vec(fields),
    })
}

/// The word 0 with the immediate of a branch set, and the immediate that it has then.
fn with_immediate(alloc: Global, value: u128) -> Result<(u128, u128), AllocError>
    requires { value < 2 ^ 12 }
{
    let isa = description(alloc, 32, vec![in alloc; branches(alloc)?]?)?;
    let imm = FieldId {
        format: FormatId(0),
        index: 0,
    };
    let zero = Bits::of(Width::of(32), 0);
    let word = with_field(&isa, imm, zero, Bits::of(Width::of(12), value));
    Ok((word.value(), field(&isa, imm, word).value()))
}

#[test]
fn a_field_of_four_ranges(rt: HostRuntime) -> Result<(), Fail> {
    assert_eq!(rt; with_immediate(rt.alloc(), 0x800), Ok((0x80000000, 0x800)));
    assert_eq!(rt; with_immediate(rt.alloc(), 0x400), Ok((0x80, 0x400)));
    assert_eq!(rt; with_immediate(rt.alloc(), 0x7e3), Ok((0x7c000380, 0x7e3)));
    Ok(())
}
