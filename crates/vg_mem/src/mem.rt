ghost use Rattle.std.specs.Prelude.{◌≡◌, ℕ, ◌+◌, ◌*◌, ◌%◌, ◌/◌, ◌^◌, ◌<◌, ◌≤◌, IsTrue, OnOk, OnErr, IsOk, IfSome};
ghost use Rattle.vg_mem.specs.Bytes.{byte_in, loaded, stored};
ghost use Rattle.vg_mem.specs.Memory.{AreKept, HasPagesOf, pages_after};
ghost use Rattle.vg_mem.specs.Pages.{bytes_of, numbers_of, pages_of};

use crate::pages::Pages;
use std::alloc::{AllocError, Global};
use std::marker::Model;
use vg_bits::{Bits, Width};

/// A memory: a byte at each address, 0 where nothing was stored.
#[derive(Drop)]
pub struct Mem {
    width: Width,
    pages: Pages,
}

impl Model for Mem {
    ghost use Rattle.std.specs.Prelude.{◌≤◌};
    ghost use Rattle.vg_mem.specs.Memory.{Memory, memory_code};
    ghost use Rattle.vg_mem.specs.Pages.{bytes_of, pages_of};

    ghost Value = { Memory };

    ghost coded = { memory_code };

    ghost view = { λ m. record {
      width = m.width;
      bytes = bytes_of m.pages.pages.items;
      pages = pages_of m.pages.pages.items;
    } };

    ghost invariant = { λ m. (8 ≤ m.width) × (m.width ≤ 64) };
}

/// An address modulo the number of addresses.
#[inline(always)]
fn wrapped(at: u64, width: Width) -> u64
    requires least { 8 ≤ width }
    requires most { width ≤ 64 }
    ensures { result ≡ at % 2 ^ width }
{
    at & (u64::MAX >> (64 - width.bits()))
}

impl Mem {
    ghost use Rattle.vg_mem.specs.Bytes.{IsNextSet};
    ghost use Rattle.vg_mem.specs.Memory.{HasRoom, KeepsBytes, after_store, blank, space_of, with_room};

    /// A memory with addresses of so many bits. It takes no memory.
    pub fn new(alloc: Global, width: Width) -> Mem
        requires least { 8 ≤ width }
        requires most { width ≤ 64 }
        ensures { result ≡ blank width }
    {
        Mem {
            width,
            pages: Pages::new(alloc),
        }
    }

    /// Takes the pages of 256 bytes of the addresses from `from` to `to`, both included. Where it finds no memory, some
    /// of them may have been taken.
    pub fn room(&mut self, from: u64, to: u64) -> Result<(), AllocError>
        requires { from ≤ to }
        ensures ok { OnOk result (self.new ≡ with_room self.old from to) }
        ensures err { OnErr result (KeepsBytes self.old self.new) }
    {
        self.pages.take_all(from / 256, to / 256 + 1)
    }

    /// The byte at an address.
    #[inline(always)]
    pub fn byte(&self, at: u64) -> u8
        ensures { result ≡ byte_in self.now.bytes at }
    {
        self.pages.byte(at)
    }

    /// So many bytes from an address on, the least significant first; the addresses wrap.
    #[inline(always)]
    pub fn load(&self, at: u64, bytes: u8) -> u128
        requires few { bytes ≤ 16 }
        ensures value { result ≡ loaded (byte_in self.now.bytes) (space_of self.now) at bytes }
        ensures fits { result < 2 ^ (8 * bytes) }
    {
        let first = wrapped(at, self.width);
        let offset = (first % 256) as usize;
        if offset + bytes as usize > 256 {
            return load_each(&self.pages, self.width, u128::from(first), bytes);
        }
        match self.pages.place(first / 256) {
            Some(place) => self.pages.read(place, offset, bytes),
            None => 0,
        }
    }

    /// The least address from one on whose byte isn't 0. It goes page by page.
    pub fn next_set(&self, from: u64) -> Option<u64>
        ensures { IsNextSet (byte_in self.now.bytes) from result }
    {
        self.pages.next_set(from)
    }

    /// Stores so many bytes of a number from an address on, the least significant first; the addresses wrap.
    #[inline(always)]
    pub fn store(&mut self, at: u64, bytes: u8, value: u128) -> Result<(), AllocError>
        requires some { 0 < bytes }
        requires few { bytes ≤ 16 }
        ensures ok { OnOk result (self.new ≡ after_store self.old at bytes value) }
        ensures err { OnErr result (KeepsBytes self.old self.new) }

        // Where there is room it succeeds.
        ensures within { HasRoom self.old at bytes → IsOk result }
    {
        let first = wrapped(at, self.width);
        let offset = (first % 256) as usize;
        if offset + bytes as usize > 256 {
            store_across(&mut self.pages, self.width, first, bytes, value)?;
            return Ok(());
        }
        let place = self.pages.reach(first / 256)?;
        self.pages.write(place, offset, bytes, value);
        Ok(())
    }
}

/// An address modulo the number of addresses.
#[inline(always)]
fn wide_wrapped(at: u128, width: Width) -> u64
    requires least { 8 ≤ width }
    requires most { width ≤ 64 }
    ensures { result ≡ at % 2 ^ width }
{
    Bits::cut_to(width, at).value() as u64
}

/// So many bytes, one after the other.
#[inline(never)]
fn load_each(pages: &Pages, width: Width, at: u128, bytes: u8) -> u128
    requires least { 8 ≤ width }
    requires most { width ≤ 64 }
    requires few { bytes ≤ 16 }
    requires range { at + bytes ≤ 2 ^ 65 }
    ensures value { result ≡ loaded (byte_in (bytes_of pages.now.pages.items)) (2 ^ width) at bytes }
    ensures fits { result < 2 ^ (8 * bytes) }
{
    if bytes == 0 {
        return 0;
    }
    let byte = pages.byte(wide_wrapped(at, width));
    u128::from(byte) + 256 * load_each(pages, width, at + 1, bytes - 1)
}

/// Stores bytes of a number, of which some lie in the next page.
#[inline(never)]
fn store_across(
    pages: &mut Pages,
    width: Width,
    first: u64,
    bytes: u8,
    value: u128,
) -> Result<(), AllocError>
    requires some { 0 < bytes }
    requires few { bytes ≤ 16 }
    requires least { 8 ≤ width }
    requires most { width ≤ 64 }
    requires first { first < 2 ^ width }
    ensures bytes { OnOk result (bytes_of pages.new.pages.items
        ≡ stored (2 ^ width) first bytes value (bytes_of pages.old.pages.items)) }
    ensures pages { OnOk result (pages_of pages.new.pages.items
        ≡ pages_after (2 ^ width) first bytes (pages_of pages.old.pages.items)) }
    ensures err { OnErr result (bytes_of pages.new.pages.items ≡ bytes_of pages.old.pages.items) }
    ensures kept { OnErr result (AreKept (pages_of pages.old.pages.items) (pages_of pages.new.pages.items)) }
    ensures within { HasPagesOf (pages_of pages.old.pages.items) (2 ^ width) first bytes → IsOk result }
{
    let last = wide_wrapped(u128::from(first) + u128::from(bytes - 1), width);
    pages.take(first / 256)?;
    pages.take(last / 256)?;
    store_each(pages, width, u128::from(first), bytes, value);
    Ok(())
}

/// Stores so many bytes, one after the other, the last first.
fn store_each(pages: &mut Pages, width: Width, at: u128, bytes: u8, value: u128)
    requires least { 8 ≤ width }
    requires most { width ≤ 64 }
    requires few { bytes ≤ 16 }
    requires range { at + bytes ≤ 2 ^ 65 }
    requires taken { HasPagesOf (pages_of pages.old.pages.items) (2 ^ width) at bytes }
    ensures bytes { bytes_of pages.new.pages.items
        ≡ stored (2 ^ width) at bytes value (bytes_of pages.old.pages.items) }
    ensures numbers { numbers_of pages.new.pages.items ≡ numbers_of pages.old.pages.items }
{
    if bytes == 0 {
        return;
    }
    store_each(pages, width, at + 1, bytes - 1, value / 256);
    let first = wide_wrapped(at, width);
    match pages.place(first / 256) {
        Some(place) => pages.write(place, (first % 256) as usize, 1, value),
        None => unreachable!(),
    }
}
