ghost use Rattle.std.specs.Prelude.{◌≡◌, ℕ, ◌+◌, ◌-◌, ◌*◌, ◌/◌, ◌%◌, ◌^◌, ◌<◌, ◌≤◌};

/// The number of `n` ones.
#[inline(always)]
pub(crate) fn ones(n: u8) -> u128
    requires least { 0 < n }
    requires most { n ≤ 128 }
    ensures { result ≡ 2 ^ n - 1 }
{
    if n <= 64 {
        (u64::MAX >> (64 - n)) as u128
    } else {
        u128::MAX >> (128 - n)
    }
}

/// The low 64 bits.
#[inline(always)]
pub(crate) fn low_word(v: u128) -> u64
    ensures { result ≡ v % 2 ^ 64 }
{
    (v & 0xffff_ffff_ffff_ffff) as u64
}

/// The low `n` bits.
#[inline(always)]
pub(crate) fn low_bits(v: u128, n: u8) -> u128
    requires least { 0 < n }
    requires most { n ≤ 128 }
    ensures { result ≡ v % 2 ^ n }
{
    if n <= 64 {
        (low_word(v) & (u64::MAX >> (64 - n))) as u128
    } else {
        v & (u128::MAX >> (128 - n))
    }
}

/// The number `v` of at most 64 bits, as a word.
#[inline(always)]
pub(crate) fn narrow(v: u128, n: u8) -> u64
    requires fits { v < 2 ^ n }
    requires short { n ≤ 64 }
    ensures { result ≡ v }
{
    v as u64
}

/// `a + b` in `n` bits.
#[inline(always)]
#[tactic(auto, using(crate::proofs::Modular::mod_mod))]
pub(crate) fn sum(a: u128, b: u128, n: u8) -> u128
    requires least { 0 < n }
    requires most { n ≤ 128 }
    ensures { result ≡ (a + b) % 2 ^ n }
{
    low_bits(a.wrapping_add(b), n)
}

/// `a - b` in `n` bits.
#[inline(always)]
#[tactic(auto, using(crate::proofs::Modular::difference_128))]
pub(crate) fn difference(a: u128, b: u128, n: u8) -> u128
    requires least { 0 < n }
    requires most { n ≤ 128 }
    requires fits { b < 2 ^ n }
    ensures { result ≡ (2 ^ n + a - b) % 2 ^ n }
{
    low_bits(a.wrapping_sub(b), n)
}

/// `a * b` in `n` bits.
#[inline(always)]
#[tactic(auto, using(crate::proofs::Modular::mod_mod))]
pub(crate) fn product(a: u128, b: u128, n: u8) -> u128
    requires least { 0 < n }
    requires most { n ≤ 128 }
    ensures { result ≡ (a * b) % 2 ^ n }
{
    if n <= 64 {
        low_bits(low_word(a).wrapping_mul(low_word(b)) as u128, n)
    } else {
        low_bits(a.wrapping_mul(b), n)
    }
}

/// `a / b` of numbers of `n` bits.
#[inline(always)]
pub(crate) fn quotient(a: u128, b: u128, n: u8) -> u128
    requires dividend { a < 2 ^ n }
    requires divisor { b < 2 ^ n }
    requires nonzero { 0 < b }
    ensures { result ≡ a / b }
{
    if n <= 64 {
        let divisor = narrow(b, n);
        (narrow(a, n) / divisor) as u128
    } else {
        a / b
    }
}

/// `a % b` of numbers of `n` bits.
#[inline(always)]
pub(crate) fn remainder(a: u128, b: u128, n: u8) -> u128
    requires dividend { a < 2 ^ n }
    requires divisor { b < 2 ^ n }
    requires nonzero { 0 < b }
    ensures { result ≡ a % b }
{
    if n <= 64 {
        let divisor = narrow(b, n);
        (narrow(a, n) % divisor) as u128
    } else {
        a % b
    }
}

/// The `n` bits of `a`, `k` places to the left.
#[inline(always)]
#[tactic(auto, using(crate::proofs::Modular::mod_mod))]
pub(crate) fn left(a: u128, k: u8, n: u8) -> u128
    requires most { n ≤ 128 }
    requires fits { a < 2 ^ n }
    requires inside { k < n }
    ensures { result ≡ (a * 2 ^ k) % 2 ^ n }
{
    if n <= 64 {
        low_bits((narrow(a, n) << k) as u128, n)
    } else {
        low_bits(a << k, n)
    }
}

/// The `n` bits of `a`, `k` places to the right.
#[inline(always)]
pub(crate) fn right(a: u128, k: u8, n: u8) -> u128
    requires most { n ≤ 128 }
    requires fits { a < 2 ^ n }
    requires inside { k < n }
    ensures { result ≡ a / 2 ^ k }
{
    if n <= 64 {
        (narrow(a, n) >> k) as u128
    } else {
        a >> k
    }
}

/// `a / b`, all ones where `b` is 0.
#[inline(always)]
pub(crate) fn total_quotient(a: u128, b: u128, n: u8) -> u128
    requires least { 0 < n }
    requires most { n ≤ 128 }
    requires dividend { a < 2 ^ n }
    requires divisor { b < 2 ^ n }
    ensures zero { b ≡ 0 → result ≡ 2 ^ n - 1 }
    ensures whole { 0 < b → result ≡ a / b }
    ensures fits { result < 2 ^ n }
{
    if b == 0 { ones(n) } else { quotient(a, b, n) }
}

/// `a % b`, and `a` where `b` is 0.
#[inline(always)]
pub(crate) fn total_remainder(a: u128, b: u128, n: u8) -> u128
    requires dividend { a < 2 ^ n }
    requires divisor { b < 2 ^ n }
    ensures zero { b ≡ 0 → result ≡ a }
    ensures rest { 0 < b → result ≡ a % b }
    ensures fits { result < 2 ^ n }
{
    if b == 0 { a } else { remainder(a, b, n) }
}

/// The `n` bits of `a`, `k` places to the left, for any `k`.
#[inline(always)]
pub(crate) fn total_left(a: u128, k: u128, n: u8) -> u128
    requires most { n ≤ 128 }
    requires fits { a < 2 ^ n }
    ensures inside { k < n → result ≡ (a * 2 ^ k) % 2 ^ n }
    ensures outside { n ≤ k → result ≡ 0 }
    ensures fits { result < 2 ^ n }
{
    if k < n as u128 {
        left(a, k as u8, n)
    } else {
        0
    }
}

/// The `n` bits of `a`, `k` places to the right, for any `k`.
#[inline(always)]
pub(crate) fn total_right(a: u128, k: u128, n: u8) -> u128
    requires most { n ≤ 128 }
    requires fits { a < 2 ^ n }
    ensures inside { k < n → result ≡ a / 2 ^ k }
    ensures outside { n ≤ k → result ≡ 0 }
    ensures fits { result < 2 ^ n }
{
    if k < n as u128 {
        right(a, k as u8, n)
    } else {
        0
    }
}

/// The `k` bits of `a` above the `m` bits of `b`.
#[inline(always)]
#[tactic(auto, using(crate::proofs::Modular::joins))]
pub(crate) fn joined(a: u128, k: u8, b: u128, m: u8) -> u128
    requires above { 0 < k }
    requires room { k + m ≤ 128 }
    requires upper { a < 2 ^ k }
    requires lower { b < 2 ^ m }
    ensures value { result ≡ a * 2 ^ m + b }
    ensures fits { result < 2 ^ (k + m) }
{
    left(a, m, k + m) | b
}
