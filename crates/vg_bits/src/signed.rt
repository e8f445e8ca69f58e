ghost use Rattle.std.specs.Prelude.{◌≡◌, ℕ, ◌+◌, ◌-◌, ◌*◌, ◌/◌, ◌%◌, ◌^◌, ◌<◌, ◌≤◌, pos, true, int_lt, unsigned_abs};
ghost use Rattle.std.specs.Int.{int_div_euclid};
ghost use Rattle.vg_bits.specs.BitValue as bits;

use crate::words::{difference, narrow, ones, quotient, remainder, right};

/// Whether the highest of the `n` bits is set.
#[inline(always)]
pub(crate) fn is_negative(a: u128, n: u8) -> bool
    requires least { 0 < n }
    requires most { n ≤ 128 }
    requires fits { a < 2 ^ n }
    ensures { result ≡ int_lt (bits.signed_value (bits.bit_value n a)) (pos 0) }
{
    if n <= 64 {
        narrow(a, n) >= 1u64 << (n - 1)
    } else {
        a >= 1u128 << (n - 1)
    }
}

/// The absolute value of the signed number.
#[inline(always)]
pub(crate) fn magnitude(a: u128, n: u8) -> u128
    requires least { 0 < n }
    requires most { n ≤ 128 }
    requires fits { a < 2 ^ n }
    ensures value { result ≡ unsigned_abs (bits.signed_value (bits.bit_value n a)) }
    ensures fits { result < 2 ^ n }
    ensures nonzero { 0 < a → 0 < result }
{
    if is_negative(a, n) {
        difference(0, a, n)
    } else {
        a
    }
}

/// The quotient of the signed numbers, towards zero: all ones where `b` is 0.
#[inline(never)]
pub(crate) fn signed_quotient(a: u128, b: u128, n: u8) -> u128
    requires least { 0 < n }
    requires most { n ≤ 128 }
    requires dividend { a < 2 ^ n }
    requires divisor { b < 2 ^ n }
    ensures value { result ≡ bits.signed_quotient (bits.bit_value n a) (bits.bit_value n b) }
    ensures fits { result < 2 ^ n }
{
    if b == 0 {
        return ones(n);
    }
    let whole = quotient(magnitude(a, n), magnitude(b, n), n);
    if is_negative(a, n) == is_negative(b, n) {
        whole
    } else {
        difference(0, whole, n)
    }
}

/// The remainder of the signed numbers, with the sign of `a`: `a` where `b` is 0.
#[inline(never)]
pub(crate) fn signed_remainder(a: u128, b: u128, n: u8) -> u128
    requires least { 0 < n }
    requires most { n ≤ 128 }
    requires dividend { a < 2 ^ n }
    requires divisor { b < 2 ^ n }
    ensures value { result ≡ bits.signed_remainder (bits.bit_value n a) (bits.bit_value n b) }
    ensures fits { result < 2 ^ n }
{
    if b == 0 {
        return a;
    }
    let rest = remainder(magnitude(a, n), magnitude(b, n), n);
    if is_negative(a, n) {
        difference(0, rest, n)
    } else {
        rest
    }
}

/// The product of the signed numbers, in twice as many bits.
#[inline(never)]
pub(crate) fn signed_product(a: u128, b: u128, n: u8) -> u128
    requires least { 0 < n }
    requires most { n ≤ 64 }
    requires left { a < 2 ^ n }
    requires right { b < 2 ^ n }
    ensures value { result ≡ bits.long_product (bits.bit_value n a) (bits.bit_value n b) true }
    ensures fits { result < 2 ^ (2 * n) }
{
    let whole = unsigned_product(magnitude(a, n), magnitude(b, n), n);
    if is_negative(a, n) == is_negative(b, n) {
        whole
    } else {
        difference(0, whole, 2 * n)
    }
}

/// The product of two numbers of `n` bits, in twice as many.
#[inline(always)]
pub(crate) fn unsigned_product(a: u128, b: u128, n: u8) -> u128
    requires most { n ≤ 64 }
    requires left { a < 2 ^ n }
    requires right { b < 2 ^ n }
    ensures value { result ≡ a * b }
    ensures fits { result < 2 ^ (2 * n) }
{
    narrow(a, n) as u128 * narrow(b, n) as u128
}

/// The `n` bits of `a`, `k` places to the right, with copies of the highest bit above them.
#[inline(always)]
pub(crate) fn signed_right(a: u128, k: u8, n: u8) -> u128
    requires least { 0 < n }
    requires most { n ≤ 128 }
    requires fits { a < 2 ^ n }
    requires inside { k < n }
    ensures value { result ≡ bits.wrapped n
        (int_div_euclid (bits.signed_value (bits.bit_value n a)) (pos (2 ^ k))) }
    ensures fits { result < 2 ^ n }
{
    if is_negative(a, n) {
        ones(n) - right(ones(n) - a, k, n)
    } else {
        right(a, k, n)
    }
}

/// The `n` bits of `a`, `k` places to the right, for any `k`, with copies of the highest bit above
/// them.
#[inline(always)]
pub(crate) fn total_signed_right(a: u128, k: u128, n: u8) -> u128
    requires least { 0 < n }
    requires most { n ≤ 128 }
    requires fits { a < 2 ^ n }
    ensures inside { k < n → result ≡ bits.wrapped n
        (int_div_euclid (bits.signed_value (bits.bit_value n a)) (pos (2 ^ k))) }
    ensures outside { n ≤ k → result ≡ bits.sign_bits (bits.bit_value n a) }
    ensures fits { result < 2 ^ n }
{
    if k < n as u128 {
        signed_right(a, k as u8, n)
    } else if is_negative(a, n) {
        ones(n)
    } else {
        0
    }
}

/// The signed number of `n` bits in `w` bits.
#[inline(always)]
pub(crate) fn signed_extended(a: u128, n: u8, w: u8) -> u128
    requires least { 0 < n }
    requires most { w ≤ 128 }
    requires wider { n ≤ w }
    requires fits { a < 2 ^ n }
    ensures value { result ≡ bits.wrapped w (bits.signed_value (bits.bit_value n a)) }
    ensures fits { result < 2 ^ w }
{
    if is_negative(a, n) {
        ones(w) - (ones(n) - a)
    } else {
        a
    }
}

/// Whether the signed number of `a` is below that of `b`.
#[inline(always)]
pub(crate) fn is_signed_below(a: u128, b: u128, n: u8) -> bool
    requires least { 0 < n }
    requires most { n ≤ 128 }
    requires left { a < 2 ^ n }
    requires right { b < 2 ^ n }
    ensures { result ≡ bits.slt (bits.bit_value n a) (bits.bit_value n b) }
{
    let negative = is_negative(a, n);
    if negative == is_negative(b, n) {
        a < b
    } else {
        negative
    }
}
