ghost use Rattle.std.specs.Prelude.{◌≡◌, ◌<◌, ◌≤◌};

use crate::{Bits, Width};

/// 2 to the power `n`, by doubling.
fn power(n: u8) -> i64 {
    let mut p: i64 = 1;
    for _ in 0..n {
        p = p.wrapping_mul(2);
    }
    p
}

/// What is left of `x` in `n` bits, by the remainder that is not negative.
fn in_bits(x: i64, n: u8) -> i64 {
    x.checked_rem_euclid(power(n)).unwrap_or(-1)
}

/// The signed number of the `n` bits `x`: the upper half of the numbers lies below 0.
fn signed(x: i64, n: u8) -> i64 {
    if x.wrapping_mul(2) < power(n) {
        x
    } else {
        x.wrapping_sub(power(n))
    }
}

/// `x` doubled `k` times in `n` bits.
fn doubled(x: i64, k: i64, n: u8) -> i64 {
    let mut y = x;
    for _ in 0..k {
        y = in_bits(y.wrapping_mul(2), n);
    }
    y
}

/// `x` halved `k` times, rounded down each time.
fn halved(x: i64, k: i64) -> i64 {
    let mut y = x;
    for _ in 0..k {
        y = y.div_euclid(2);
    }
    y
}

/// The number whose bit at each place is the answer of `f` at the two bits there.
fn by_bits<F: Fn(i64, i64) -> i64>(a: i64, b: i64, n: u8, f: F) -> i64
    requires { F.IsAlwaysCallable f }
{
    let mut all: i64 = 0;
    for k in 0..n {
        let place = i64::from(k);
        let bit = f(
            halved(a, place).rem_euclid(2),
            halved(b, place).rem_euclid(2),
        );
        all = all.wrapping_add(bit.wrapping_mul(power(k)));
    }
    all
}

/// The number of `x`, or -1 where it is large.
fn number(x: Bits) -> i64 {
    i64::try_from(x.value()).unwrap_or(-1)
}

/// The value `x` of `n` bits.
fn value(x: i64, n: u8) -> Bits
    requires least { 0 < n }
    requires most { n ≤ 128 }
    ensures { result.width ≡ n }
{
    Bits::cut_to(Width::of(n), u128::try_from(x).unwrap_or(0))
}

fn sums_agree(a: i64, b: i64, n: u8) -> bool
    requires least { 0 < n }
    requires most { n ≤ 4 }
{
    let (x, y) = (value(a, n), value(b, n));
    let got = [
        number(x.add(y)),
        number(x.sub(y)),
        number(x.mul(y)),
        number(x.neg()),
    ];
    let sums = [
        a.wrapping_add(b),
        a.wrapping_sub(b),
        a.wrapping_mul(b),
        a.wrapping_neg(),
    ];
    got == sums.map(|sum| in_bits(sum, n))
}

fn products_agree(a: i64, b: i64, n: u8) -> bool
    requires least { 0 < n }
    requires most { n ≤ 4 }
{
    let (x, y) = (value(a, n), value(b, n));
    let got = [number(x.mul_long(y, false)), number(x.mul_long(y, true))];
    let products = [a.wrapping_mul(b), signed(a, n).wrapping_mul(signed(b, n))];
    got == products.map(|product| in_bits(product, n * 2))
}

fn quotients_agree(a: i64, b: i64, n: u8) -> bool
    requires least { 0 < n }
    requires most { n ≤ 4 }
{
    let (x, y) = (value(a, n), value(b, n));
    let (s, t) = (signed(a, n), signed(b, n));
    let got = [
        number(x.udiv(y)),
        number(x.urem(y)),
        number(x.sdiv(y)),
        number(x.srem(y)),
    ];
    let want = [
        a.checked_div(b).unwrap_or(-1),
        a.checked_rem(b).unwrap_or(a),
        s.checked_div(t).unwrap_or(-1),
        s.checked_rem(t).unwrap_or(s),
    ];
    got == want.map(|number| in_bits(number, n))
}

fn bits_agree(a: i64, b: i64, n: u8) -> bool
    requires least { 0 < n }
    requires most { n ≤ 4 }
{
    let (x, y) = (value(a, n), value(b, n));
    let got = [
        number(x.and(y)),
        number(x.or(y)),
        number(x.xor(y)),
        number(x.not()),
    ];
    let want = [
        by_bits(a, b, n, |p, q| p.min(q)),
        by_bits(a, b, n, |p, q| p.max(q)),
        by_bits(a, b, n, |p, q| i64::from(p != q)),
        by_bits(a, b, n, |p, _| i64::from(p == 0)),
    ];
    got == want
}

fn shifts_agree(a: i64, b: i64, n: u8) -> bool
    requires least { 0 < n }
    requires most { n ≤ 4 }
{
    let (x, y) = (value(a, n), value(b, n));
    let got = [number(x.shl(y)), number(x.shr(y)), number(x.sar(y))];
    let copies = in_bits(halved(signed(a, n), b), n);
    got == [doubled(a, b, n), halved(a, b), copies]
}

fn orders_agree(a: i64, b: i64, n: u8) -> bool
    requires least { 0 < n }
    requires most { n ≤ 4 }
{
    let (x, y) = (value(a, n), value(b, n));
    let got = [x.eq(y), x.lt(y), x.slt(y)];
    got == [a == b, a < b, signed(a, n) < signed(b, n)]
}

fn joins_agree(a: i64, b: i64, n: u8) -> bool
    requires least { 0 < n }
    requires most { n ≤ 4 }
{
    let whole = value(a, n).join(value(b, n));
    number(whole) == a.wrapping_mul(power(n)).wrapping_add(b)
}

/// `a` in `m` bits, or its low `m` bits.
fn widths_agree(a: i64, n: u8, m: u8) -> bool
    requires least { (0 < n) × (0 < m) }
    requires most { (n ≤ 4) × (m ≤ 4) }
{
    let (x, w) = (value(a, n), Width::of(m));
    if n <= m {
        let got = [number(x.extend(w)), number(x.sign_extend(w))];
        got == [a, in_bits(signed(a, n), m)]
    } else {
        number(x.cut(w)) == in_bits(a, m)
    }
}

/// The bits of `a` from the one below `hi` down to `lo`, where there are such bits.
fn slices_agree(a: i64, n: u8, hi: u8, lo: u8) -> bool
    requires least { 0 < n }
    requires most { n ≤ 4 }
{
    if lo >= hi || hi > n {
        return true;
    }
    let lower = halved(a, i64::from(lo));
    number(value(a, n).slice(hi - 1, lo)) == in_bits(lower, hi - lo)
}

/// Every operator at every value of 1 to 4 bits, against numbers that are counted in 64 bits.
#[test]
fn agrees_with_counting(rt: HostRuntime) {
    for n in 1..5 {
        for a in 0..power(n) {
            for b in 0..power(n) {
                let agree = [
                    sums_agree(a, b, n),
                    products_agree(a, b, n),
                    quotients_agree(a, b, n),
                    bits_agree(a, b, n),
                    shifts_agree(a, b, n),
                    orders_agree(a, b, n),
                    joins_agree(a, b, n),
                ];
                assert_eq!(rt; agree, [true; 7], "{a} and {b} in {n} bits");
            }
        }
    }
}

/// The operators that take a width or places, at every value of 1 to 4 bits.
#[test]
fn widths_agree_with_counting(rt: HostRuntime) {
    for n in 1..5 {
        for a in 0..power(n) {
            for k in 1..5 {
                let agree = [
                    widths_agree(a, n, k),
                    slices_agree(a, n, k, 0),
                    slices_agree(a, n, k, 1),
                    slices_agree(a, n, k, 2),
                    slices_agree(a, n, k, 3),
                ];
                assert_eq!(rt; agree, [true; 5], "{a} in {n} bits, {k}");
            }
        }
    }
}

/// -1 times -1 at the greatest width.
#[test]
fn product_of_all_ones(rt: HostRuntime) {
    let all = Bits::of(Width::of(128), u128::MAX);
    assert_eq!(rt; all.mul(all).value(), 1);
}
