ghost use Rattle.std.specs.Prelude.{IsTrue, ◌<◌, ◌≤◌};
ghost use Rattle.vg_isa.specs.Accepted.{is_machine_width};

use super::*;
use sqlite_items::Items;
use std::alloc::{AllocError, Global};
use std::test::Fail;
use vg_bits::Width;
use vg_isa::{Isa, Parts, PcDecl};

/// A description without instructions.
#[tactic(auto, unfolding(vg_isa::specs::Accepted::is_isa))]
pub(crate) fn description(alloc: Global, word: u8, address: u8) -> Result<Isa, AllocError>
    requires word { IsTrue (is_machine_width word) }
    requires address { IsTrue (is_machine_width address) }
{
    let parts = Parts {
        name: Items::from_slice(alloc, b"T")?,
        word: Width::of(word),
        pc: PcDecl {
            name: Items::from_slice(alloc, b"PC")?,
            width: Width::of(address),
        },
        memory: Items::from_slice(alloc, b"MEM")?,
        regs: Items::new(alloc),
        formats: Items::new(alloc),
        instrs: Items::new(alloc),
        abi: None,
        micro: None,
    };
    Ok(Isa::new(parts))
}

/// An image of one code word at a base and one byte at an address, in the digits of both.
fn end_text(alloc: Global, base: &[u8], word: &[u8], last: &[u8]) -> Result<Vec<u8>, AllocError> {
    let mut text = Vec::new(alloc);
    text.extend_from_slice(b"image T\nbase 0x")?;
    text.extend_from_slice(base)?;
    text.extend_from_slice(b"\nentry 0x")?;
    text.extend_from_slice(base)?;
    text.extend_from_slice(b"\nstop 0x")?;
    text.extend_from_slice(last)?;
    text.extend_from_slice(b"\nfull 0x")?;
    text.extend_from_slice(last)?;
    text.extend_from_slice(b"\ncode ")?;
    text.extend_from_slice(word)?;
    text.extend_from_slice(b"\ndata 0x")?;
    text.extend_from_slice(last)?;
    text.extend_from_slice(b"\nbytes a5\nend\n")?;
    Ok(text)
}

/// Whether a text spells an image whose spelling it is.
pub(crate) fn is_written_back(alloc: Global, isa: &Isa, text: &[u8]) -> Result<bool, ImageFault> {
    let image = read(alloc, isa, text)?;
    let written = write(alloc, isa, &image)?;
    Ok(written.as_slice() == text)
}

#[test]
fn ends_of_16_bits(rt: HostRuntime) -> Result<(), Fail> {
    let isa = description(rt.alloc(), 16, 16)?;
    let text = end_text(rt.alloc(), b"fffe", b"0013", b"ffff")?;
    assert!(rt; is_written_back(rt.alloc(), &isa, text.as_slice())?);
    let text = end_text(rt.alloc(), b"0000", b"ffff", b"0000")?;
    assert!(rt; is_written_back(rt.alloc(), &isa, text.as_slice())?);
    Ok(())
}

#[test]
fn ends_of_32_bits(rt: HostRuntime) -> Result<(), Fail> {
    let isa = description(rt.alloc(), 64, 32)?;
    let text = end_text(rt.alloc(), b"fffffff8", b"0123456789abcdef", b"ffffffff")?;
    assert!(rt; is_written_back(rt.alloc(), &isa, text.as_slice())?);
    let text = end_text(rt.alloc(), b"00000000", b"ffffffffffffffff", b"00000000")?;
    assert!(rt; is_written_back(rt.alloc(), &isa, text.as_slice())?);
    Ok(())
}

#[test]
fn ends_of_64_bits(rt: HostRuntime) -> Result<(), Fail> {
    let isa = description(rt.alloc(), 32, 64)?;
    let text = end_text(
        rt.alloc(),
        b"fffffffffffffffc",
        b"00000013",
        b"ffffffffffffffff",
    )?;
    assert!(rt; is_written_back(rt.alloc(), &isa, text.as_slice())?);
    let text = end_text(
        rt.alloc(),
        b"0000000000000000",
        b"ffffffff",
        b"0000000000000000",
    )?;
    assert!(rt; is_written_back(rt.alloc(), &isa, text.as_slice())?);
    Ok(())
}
