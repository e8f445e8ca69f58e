//! The lines of a state, of any machine that can be looked at and tells its next byte that isn't 0.
ghost use Rattle.std.specs.Prelude.{◌≡◌, ◌+◌, ◌<◌, ◌≤◌, ◌^◌, ◌∷◌, ◌++◌, ℕ, [], Some, IsTrue, OnOk, IfOk, IfSome, codes, flat_map, nat_eq, slice_get};
ghost use Rattle.std.specs.List.{list_all};
ghost use Rattle.vg_text.specs.Number.{hexadecimal};
ghost use Rattle.vg_isa.specs.Declaration.{register_count};
ghost use Rattle.vg_isa.specs.Accepted.{is_register_decl};
ghost use Rattle.vg_isa.specs.Value.{HasDeclaredWidths, IsNextSet};
ghost use Rattle.vg_image.specs.Spelling.{address_line, address_text};
ghost use Rattle.vg_top.specs.Reports.State as Lines;

use std::alloc::{AllocError, Global};
use vg_bits::Bits;
use vg_image::Image;
use vg_isa::{Isa, RegDecl, RegId, View};
use vg_iss::Iss;
use vg_text::number::{push_decimal, push_hexadecimal};
use vg_text::piece::push_bytes;

/// A machine whose state is printed.
pub(crate) trait Machine: View {
    /// The least address not below `from` whose byte isn't 0; None where there is none.
    fn next_set(&self, from: u64) -> Option<u64>
        ensures next { IsNextSet (Self.reads self.now).byte from result }
        ensures within { IfSome result (λ at. at < 2 ^ (Self.reads self.now).pc.width) };
}

impl Machine for Iss<'_> {
    fn next_set(&self, from: u64) -> Option<u64> {
        Iss::next_set(self, from)
    }
}

/// Appends the lines of a machine's state: its program counter, its registers, and its memory outside the image's
/// code.
pub(crate) fn push_state<M: Machine>(
    out: &mut Vec<u8>,
    isa: &Isa,
    image: &Image,
    machine: &M,
) -> Result<(), AllocError>
    requires widths { HasDeclaredWidths isa.now (M.reads machine.now) }
    requires registers { M.registers machine.now ≡ isa.now.regs }
    ensures ok { OnOk result (out.new.items ≡ out.old.items ++ Lines.state_lines isa.now image.now (M.reads machine.now)) }
{
    push_pc(out, isa, machine.pc())?;
    push_registers(out, isa, machine)?;
    push_memory(out, isa, image, machine)
}

/// Appends the line of a program counter.
fn push_pc(out: &mut Vec<u8>, isa: &Isa, pc: Bits) -> Result<(), AllocError>
    requires { pc.width ≡ isa.now.pc.width }
    ensures ok { OnOk result (out.new.items ≡ out.old.items ++ address_line isa.now (codes "pc ") pc.number) }
{
    push_bytes(out, b"pc ")?;
    push_address(out, isa, pc)?;
    push_bytes(out, b"\n")
}

/// Appends an address.
#[tactic(auto, using(crate::proofs::Digits::address_fits))]
fn push_address(out: &mut Vec<u8>, isa: &Isa, at: Bits) -> Result<(), AllocError>
    requires { at.width ≡ isa.now.pc.width }
    ensures ok { OnOk result (out.new.items ≡ out.old.items ++ address_text isa.now at.number) }
{
    let digits = isa.pc().width.bits() / 4;
    push_bytes(out, b"0x")?;
    push_hexadecimal(out, digits, at.value())
}

/// Appends the lines of all registers.
#[tactic(auto, using(crate::proofs::RegisterLines::few))]
fn push_registers<M: Machine>(out: &mut Vec<u8>, isa: &Isa, machine: &M) -> Result<(), AllocError>
    requires widths { HasDeclaredWidths isa.now (M.reads machine.now) }
    requires registers { M.registers machine.now ≡ isa.now.regs }
    ensures ok { OnOk result (out.new.items ≡ out.old.items ++ Lines.register_lines (M.reads machine.now) 0 isa.now.regs) }
{
    let _ = isa.parts();
    let regs = isa.regs();
    for (r, decl) in regs.iter().enumerate() {
        push_declaration(out, decl, RegId(r as u32), machine)?;
    }
    Ok(())
}

/// How many registers a declaration has.
fn count(decl: &RegDecl) -> u8
    requires { IsTrue (is_register_decl decl.now) }
    ensures { result ≡ register_count decl.now }
{
    match decl.index {
        None => 1,
        Some(width) => 1 << width.bits(),
    }
}

/// Appends the lines of a declaration's registers.
#[tactic(auto, unfolding(crate::specs::Reports::State::declaration_lines))]
fn push_declaration<M: Machine>(
    out: &mut Vec<u8>,
    decl: &RegDecl,
    r: RegId,
    machine: &M,
) -> Result<(), AllocError>
    requires here { slice_get (M.registers machine.now) r.0 ≡ Some decl.now }
    requires small { IsTrue (is_register_decl decl.now) }
    requires width { (i : ℕ) → ((M.reads machine.now).reg r.0 i).width ≡ decl.now.width }
    ensures ok { OnOk result (out.new.items ≡ out.old.items ++ Lines.declaration_lines (M.reads machine.now) r.0 decl.now) }
{
    for i in 0..count(decl) {
        push_register(out, decl, i, machine.reg(r, i))?;
    }
    Ok(())
}

/// Appends the line of a register that doesn't read as 0.
fn push_register(out: &mut Vec<u8>, decl: &RegDecl, i: u8, value: Bits) -> Result<(), AllocError>
    requires { value.width ≡ decl.now.width }
    ensures ok { OnOk result (out.new.items ≡ out.old.items ++ Lines.value_line (Lines.register_name decl.now decl.now.index i) decl.now.width value.number) }
{
    if value.value() == 0 {
        return Ok(());
    }
    push_name(out, decl, i)?;
    push_value(out, value)
}

/// Appends the name of a register.
fn push_name(out: &mut Vec<u8>, decl: &RegDecl, i: u8) -> Result<(), AllocError>
    ensures ok { OnOk result (out.new.items ≡ out.old.items ++ Lines.register_name decl.now decl.now.index i) }
{
    push_bytes(out, decl.name.as_slice())?;
    match decl.index {
        None => Ok(()),
        Some(_) => {
            push_bytes(out, b"[")?;
            push_decimal(out, u64::from(i))?;
            push_bytes(out, b"]")
        }
    }
}

/// Appends a space, a value with a digit for each four bits or fewer of its width, and a line feed.
#[tactic(auto, using(crate::proofs::Digits::value_fits))]
fn push_value(out: &mut Vec<u8>, value: Bits) -> Result<(), AllocError>
    ensures ok { OnOk result (out.new.items ≡ out.old.items ++ (codes " " ++ Lines.value_text value.width value.number ++ 10 ∷ [])) }
{
    let digits = (value.width().bits() + 3) / 4;
    push_bytes(out, b" 0x")?;
    push_hexadecimal(out, digits, value.value())?;
    push_bytes(out, b"\n")
}

/// Appends the lines of memory, of each 16 bytes among which one outside the image's code isn't 0.
fn push_memory<M: Machine>(
    out: &mut Vec<u8>,
    isa: &Isa,
    image: &Image,
    machine: &M,
) -> Result<(), AllocError>
    requires width { (M.reads machine.now).pc.width ≡ isa.now.pc.width }
    ensures ok { OnOk result (out.new.items ≡ out.old.items ++ Lines.memory_lines isa.now image.now (M.reads machine.now).byte) }
{
    let _ = isa.pc();
    let mut from: u64 = 0;
    while let Some(at) = machine.next_set(from) {
        let row = at / 16 * 16;
        push_row(out, isa, image, machine, row)?;
        let Some(behind) = row.checked_add(16) else {
            return Ok(());
        };
        from = behind;
    }
    Ok(())
}

/// Whether an address lies in the image's code.
fn is_in_code(isa: &Isa, image: &Image, at: u64) -> bool
    ensures { result ≡ Lines.in_code isa.now image.now at }
{
    let bytes = u128::from(isa.word().bits() / 8);
    let base = u128::from(image.base);
    let end = base + bytes * image.code.len() as u128;
    base <= u128::from(at) && u128::from(at) < end
}

/// The byte at an address; 0 in the image's code.
#[tactic(auto, unfolding(crate::specs::Reports::State::data_byte))]
fn data_byte<M: Machine>(isa: &Isa, image: &Image, machine: &M, at: u64) -> u8
    requires width { (M.reads machine.now).pc.width ≡ isa.now.pc.width }
    requires within { at < 2 ^ isa.now.pc.width }
    ensures { result ≡ Lines.data_byte isa.now image.now (M.reads machine.now).byte at }
{
    if is_in_code(isa, image, at) {
        return 0;
    }
    let at = Bits::of(isa.pc().width, u128::from(at));
    machine.mem(at, 1).value() as u8
}

/// The 16 bytes from an address on.
#[tactic(auto, unfolding(crate::specs::Reports::State::row_of))]
fn row_of<M: Machine>(
    alloc: Global,
    isa: &Isa,
    image: &Image,
    machine: &M,
    at: u64,
) -> Result<Vec<u8>, AllocError>
    requires width { (M.reads machine.now).pc.width ≡ isa.now.pc.width }
    requires room { at + 16 ≤ 2 ^ isa.now.pc.width }
    requires fits { at + 16 ≤ 2 ^ 64 }
    ensures { IfOk result (λ row. row.items ≡ Lines.row_of isa.now image.now (M.reads machine.now).byte at) }
{
    let mut row = Vec::new(alloc);
    for k in 0..16u64 {
        row.push(data_byte(isa, image, machine, at + k))?;
    }
    Ok(row)
}

/// Appends bytes with two digits each.
fn push_digits(out: &mut Vec<u8>, bytes: &[u8]) -> Result<(), AllocError>
    ensures ok { OnOk result (out.new.items ≡ out.old.items ++ flat_map (hexadecimal 2) bytes.now) }
{
    for byte in bytes {
        push_hexadecimal(out, 2, u128::from(*byte))?;
    }
    Ok(())
}

/// Whether bytes are all 0.
fn is_zero(row: &[u8]) -> bool
    ensures { result ≡ list_all (λ byte. nat_eq byte 0) row.now }
{
    row.iter().all(|byte| *byte == 0)
}

/// Appends the line of 16 bytes, where one of them isn't 0.
#[tactic(auto, unfolding(crate::specs::Reports::State::row_line))]
fn push_row_line(out: &mut Vec<u8>, isa: &Isa, at: Bits, row: &[u8]) -> Result<(), AllocError>
    requires { at.width ≡ isa.now.pc.width }
    ensures ok { OnOk result (out.new.items ≡ out.old.items ++ Lines.row_line isa.now at.number row.now) }
{
    if is_zero(row) {
        return Ok(());
    }
    push_bytes(out, b"mem ")?;
    push_address(out, isa, at)?;
    push_bytes(out, b" ")?;
    push_digits(out, row)?;
    push_bytes(out, b"\n")
}

/// Appends the line of the 16 bytes from an address on.
fn push_row<M: Machine>(
    out: &mut Vec<u8>,
    isa: &Isa,
    image: &Image,
    machine: &M,
    at: u64,
) -> Result<(), AllocError>
    requires width { (M.reads machine.now).pc.width ≡ isa.now.pc.width }
    requires room { at + 16 ≤ 2 ^ isa.now.pc.width }
    requires fits { at + 16 ≤ 2 ^ 64 }
    ensures ok { OnOk result (out.new.items ≡ out.old.items ++ Lines.row_line isa.now at (Lines.row_of isa.now image.now (M.reads machine.now).byte at)) }
{
    let row = row_of(*out.allocator(), isa, image, machine, at)?;
    let at = Bits::of(isa.pc().width, u128::from(at));
    push_row_line(out, isa, at, row.as_slice())
}
