//! A memory of bytes at addresses of 8 to 64 bits, kept by pages of 256 bytes.
//!
//! A [`Mem`] has a byte at each address, 0 where nothing was stored. `load` and `store` access 1 to
//! 16 bytes from an address on, the least significant first; their addresses wrap modulo 2 to the
//! width. `byte` reads one, `next_set` gives the least address from one on whose byte isn't 0, and
//! `room` takes the pages of a range of addresses, so that later stores there find memory.
//!
//! **The theorem**: contracts see a `Mem` as a `Memory` of `specs/Memory.antt`: the width of its
//! addresses, the finite map of the bytes that aren't 0, and the set of the pages that are taken.
//! Each call is one equation on that value, in the words of `specs/Bytes.antt`: after a store the
//! bytes are `stored` of those before, a load is `loaded` of them. Want of memory is the one error,
//! and keeps all bytes. A store whose pages are taken (`HasRoom`) succeeds and takes no memory.
//! [`others_stay`], [`stored_is_loaded`] and [`room_stays`] are laws on these words: a store keeps
//! each byte that it doesn't name, what was stored is loaded, and a page that is taken stays so.
//!
//! **How it is kept**: the pages stand in the order in which they were taken, with a map from a
//! page's number to its place. A table of 1,024 hints, by the low bits of the number, says where a
//! page may stand. A hint is looked at before it is believed, so the table keeps no invariant, and a
//! wrong hint costs a search in the map. A store sets the hint of its page; a load sets none.
//!
//! **Cost**: an access of 1, 2, 4 or 8 bytes that lies in a page whose hint is right takes a few
//! nanoseconds, without a loop. Other sizes go byte by byte, and so do accesses that lie in two
//! pages. A page takes 264 bytes and an entry of the map, and is taken in logarithmic time. `next_set`
//! passes over taken pages alone, so going through all set bytes costs what is taken, not the space of
//! addresses. A `Mem` itself takes 4 KiB for its hints: hold one in place, and hand on references.
//!
//! **Limits**: no page is given back.
//!
//! ```
//! let mut memory = Mem::new(alloc, Width::of(16));
//! memory.room(0xff00, 0xffff)?;                // the stores below take this page and the first
//! memory.store(0xfffe, 4, 0x0403_0201)?;       // 01 and 02 at the end, 03 and 04 at the start
//! memory.byte(0xffff);                         // 0x02
//! memory.byte(0);                              // 0x03
//! memory.load(0xfffe, 4);                      // 0x0403_0201
//! memory.next_set(2);                          // Some(0xfffe)
//! ```
#![tactic(auto)]

mod laws;
mod mem;
mod page;
mod pages;

pub use laws::{others_stay, room_stays, stored_is_loaded};
pub use mem::Mem;

#[cfg(test)]
mod tests;
