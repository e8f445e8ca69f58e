//! Bit values of 1 to 128 bits, and the operators of a processor on them.
//!
//! A [`Bits`] is a width, 1 to 128, and a number below 2 to that width. It is made by `Bits::new`,
//! which is None where the number has more bits, by `Bits::of`, which requires that it has not, or
//! by `Bits::cut_to`, which keeps the low bits. Each operator takes one or two such values, and
//! gives one, or a `bool`. None takes memory, and none refuses: what a width must be is a
//! `requires`.
//!
//! **The theorem**: each operator is its formula on whole numbers. `specs/BitValue.antt` has the
//! formulas, each under the operator's name, and a contract is one equation, as
//! `result ≡ bits.add self o`. A caller needs nothing else; a formula shows the width of its
//! result. In words, at a width of n bits, where the signed number is two's complement:
//!
//! - `add`, `sub`, `mul` and `neg` wrap: they are taken modulo 2^n. `mul_long` is the whole
//!   product, of 2 n bits, of the unsigned numbers or of the signed ones.
//! - `udiv` and `urem` divide the unsigned numbers. A quotient by 0 is all ones, and the remainder
//!   is the dividend. `sdiv` and `srem` divide the signed numbers towards zero, with the same
//!   answers at 0; the remainder has the sign of the dividend, and the least number divided by -1
//!   is itself, with remainder 0. (These are the answers of RISC-V's M extension.)
//! - `and`, `or`, `xor` and `not` go bit by bit.
//! - `shl`, `shr` and `sar` shift by a value of any width. By n or more, `shl` and `shr` give 0,
//!   and `sar` n copies of the sign bit.
//! - `eq` and `lt` compare the unsigned numbers, `slt` the signed ones.
//! - `extend` adds zeros above, `sign_extend` copies of the sign bit, `cut` keeps the low bits,
//!   `join` puts one value above another, and `slice` takes the bits from one place down to
//!   another.
//!
//! **Types**: [`Width`] and [`Bits`]. Both are `Copy`, and `==`, `<` and hashing are derived: a
//! `Bits` is ordered by its width, and then by its number, as a key of a map wants it.
//!
//! **Cost**: a `Bits` takes 32 bytes, and no heap. Each operator is always inlined, with a path
//! for widths up to 64 that is a few instructions on 64-bit words, and no loop; above 64 it works
//! on pairs of words, and divides by a call. `sdiv`, `srem` and the signed `mul_long` are a call
//! at any width. A `Bits` that comes back from a call that is not inlined goes through memory, so
//! a loop that counts keeps numbers, as `value` gives them.
//!
//! An example, at 8 bits:
//!
//! ```
//! let w = Width::of(8);
//! let least = Bits::of(w, 0x80);
//! let minus_one = Bits::of(w, 0xff);
//! least.add(minus_one);                // 0x7f, for the sum wraps
//! least.sdiv(minus_one);               // 0x80, the least number again
//! least.sar(Bits::of(w, 3));           // 0xf0
//! least.sign_extend(Width::of(16));    // 0xff80, of 16 bits
//! least.slice(7, 4);                   // 0x8, of 4 bits
//! least.slt(minus_one);                // true
//! ```
#![tactic(auto)]

mod bit_value;
mod bit_width;
mod signed;
mod words;

pub use bit_value::Bits;
pub use bit_width::Width;

#[cfg(test)]
mod tests;
