ghost use Rattle.std.specs.Prelude.{◌≡◌, ℕ, ◌+◌, ◌-◌, ◌*◌, ◌/◌, ◌%◌, ◌^◌, ◌<◌, ◌≤◌, SomeIff};
ghost use Rattle.vg_bits.specs.BitValue as bits;

use crate::Width;
use crate::signed::{
    is_signed_below, signed_extended, signed_product, signed_quotient, signed_remainder,
    total_signed_right, unsigned_product,
};
use crate::words::{
    difference, joined, low_bits, ones, product, right, sum, total_left, total_quotient,
    total_remainder, total_right,
};
use std::marker::Model;

/// A value of 1 to 128 bits: a width, and a number below 2 to that width. The derived order goes by
/// the width first.
#[derive(Clone, Copy, PartialEq, Eq, PartialOrd, Ord, Hash, Debug)]
pub struct Bits {
    width: Width,
    value: u128,
}

impl Model for Bits {
    ghost use Rattle.std.specs.Prelude.{◌<◌, ◌≤◌, ◌^◌};
    ghost use Rattle.vg_bits.specs.BitValue.{BitValue};

    ghost Value = { BitValue };

    ghost view = { λ b. record { width = b.width; number = b.value } };

    ghost invariant = { λ b. (0 < b.width) × (b.width ≤ 128) × (b.value < 2 ^ b.width) };

    ghost inverse = { λ v. record { width = v.width; value = v.number } };
}

impl Bits {
    /// The value `v` of `w` bits, or None where `v` has more.
    #[inline(always)]
    pub fn new(w: Width, v: u128) -> Option<Bits>
        ensures { SomeIff result (v < 2 ^ w) (record { width = w; number = v }) }
    {
        if v <= ones(w.bits()) {
            Some(Bits::of(w, v))
        } else {
            None
        }
    }

    /// The value `v` of `w` bits.
    #[inline(always)]
    pub fn of(w: Width, v: u128) -> Bits
        requires { v < 2 ^ w }
        ensures { result ≡ record { width = w; number = v } }
    {
        let _ = w.bits();
        Bits { width: w, value: v }
    }

    /// The low `w` bits of `v`.
    #[inline(always)]
    pub fn cut_to(w: Width, v: u128) -> Bits
        ensures { result ≡ record { width = w; number = v % 2 ^ w } }
    {
        Bits::of(w, low_bits(v, w.bits()))
    }

    /// How many bits there are.
    #[inline(always)]
    pub fn width(self) -> Width
        ensures value { result ≡ self.width }
        ensures least { 0 < self.width }
        ensures most { self.width ≤ 128 }
    {
        self.width
    }

    /// The number.
    #[inline(always)]
    pub fn value(self) -> u128
        ensures value { result ≡ self.number }
        ensures below { self.number < 2 ^ self.width }
    {
        self.value
    }

    /// The sum, which wraps.
    #[inline(always)]
    pub fn add(self, o: Bits) -> Bits
        requires { self.width ≡ o.width }
        ensures { result ≡ bits.add self o }
    {
        let n = self.width.bits();
        Bits::of(self.width, sum(self.value, o.value, n))
    }

    /// The difference, which wraps.
    #[inline(always)]
    pub fn sub(self, o: Bits) -> Bits
        requires { self.width ≡ o.width }
        ensures { result ≡ bits.sub self o }
    {
        let n = self.width.bits();
        Bits::of(self.width, difference(self.value, o.value, n))
    }

    /// The product, which wraps.
    #[inline(always)]
    pub fn mul(self, o: Bits) -> Bits
        requires { self.width ≡ o.width }
        ensures { result ≡ bits.mul self o }
    {
        let n = self.width.bits();
        Bits::of(self.width, product(self.value, o.value, n))
    }

    /// The product at double width: of the signed numbers where `signed` is set, and else of the
    /// unsigned ones.
    #[inline(always)]
    #[tactic(auto, using(std::proofs::lemmas::Bool::Decides::nat_tests), unfolding(crate::specs::BitValue::long_product))]
    pub fn mul_long(self, o: Bits, signed: bool) -> Bits
        requires same { self.width ≡ o.width }
        requires room { self.width ≤ 64 }
        ensures { result ≡ bits.mul_long self o signed }
    {
        let n = self.width.bits();
        let width = Width::of(2 * n);
        if signed {
            Bits::of(width, signed_product(self.value, o.value, n))
        } else {
            Bits::of(width, unsigned_product(self.value, o.value, n))
        }
    }

    /// Zero minus the number, which wraps.
    #[inline(always)]
    pub fn neg(self) -> Bits
        ensures { result ≡ bits.neg self }
    {
        let n = self.width.bits();
        Bits::of(self.width, difference(0, self.value, n))
    }

    /// The quotient of the unsigned numbers, all ones where the divisor is 0.
    #[inline(always)]
    #[tactic(auto, using(std::proofs::lemmas::Bool::Decides::nat_tests), unfolding(crate::specs::BitValue::unsigned_quotient))]
    pub fn udiv(self, o: Bits) -> Bits
        requires { self.width ≡ o.width }
        ensures { result ≡ bits.udiv self o }
    {
        let n = self.width.bits();
        Bits::of(self.width, total_quotient(self.value, o.value, n))
    }

    /// The remainder of the unsigned numbers, the dividend where the divisor is 0.
    #[inline(always)]
    #[tactic(auto, using(std::proofs::lemmas::Bool::Decides::nat_tests), unfolding(crate::specs::BitValue::unsigned_remainder))]
    pub fn urem(self, o: Bits) -> Bits
        requires { self.width ≡ o.width }
        ensures { result ≡ bits.urem self o }
    {
        let n = self.width.bits();
        Bits::of(self.width, total_remainder(self.value, o.value, n))
    }

    /// The quotient of the signed numbers, towards zero: all ones where the divisor is 0, and the
    /// least number where that is divided by -1.
    #[inline(always)]
    pub fn sdiv(self, o: Bits) -> Bits
        requires { self.width ≡ o.width }
        ensures { result ≡ bits.sdiv self o }
    {
        let n = self.width.bits();
        Bits::of(self.width, signed_quotient(self.value, o.value, n))
    }

    /// The remainder of the signed numbers, with the sign of the dividend: the dividend where the
    /// divisor is 0.
    #[inline(always)]
    pub fn srem(self, o: Bits) -> Bits
        requires { self.width ≡ o.width }
        ensures { result ≡ bits.srem self o }
    {
        let n = self.width.bits();
        Bits::of(self.width, signed_remainder(self.value, o.value, n))
    }

    /// The bits that are set in both.
    #[inline(always)]
    pub fn and(self, o: Bits) -> Bits
        requires { self.width ≡ o.width }
        ensures { result ≡ bits.and self o }
    {
        Bits::of(self.width, self.value & o.value)
    }

    /// The bits that are set in one or both.
    #[inline(always)]
    #[tactic(auto, using(std::proofs::lemmas::Nat::or_lt))]
    pub fn or(self, o: Bits) -> Bits
        requires { self.width ≡ o.width }
        ensures { result ≡ bits.or self o }
    {
        Bits::of(self.width, self.value | o.value)
    }

    /// The bits that are set in one alone.
    #[inline(always)]
    #[tactic(auto, using(std::proofs::lemmas::Nat::xor_lt))]
    pub fn xor(self, o: Bits) -> Bits
        requires { self.width ≡ o.width }
        ensures { result ≡ bits.xor self o }
    {
        Bits::of(self.width, self.value ^ o.value)
    }

    /// The bits that are not set.
    #[inline(always)]
    pub fn not(self) -> Bits
        ensures { result ≡ bits.not self }
    {
        Bits::of(self.width, ones(self.width.bits()) - self.value)
    }

    /// Shifts to the left by the number of `o`: 0 where that is the width or more.
    #[inline(always)]
    #[tactic(auto, using(std::proofs::lemmas::Bool::Decides::nat_tests), unfolding(crate::specs::BitValue::shifted_left))]
    pub fn shl(self, o: Bits) -> Bits
        ensures { result ≡ bits.shl self o }
    {
        let n = self.width.bits();
        Bits::of(self.width, total_left(self.value, o.value, n))
    }

    /// Shifts to the right by the number of `o`: 0 where that is the width or more.
    #[inline(always)]
    #[tactic(auto, using(std::proofs::lemmas::Bool::Decides::nat_tests), unfolding(crate::specs::BitValue::shifted_right))]
    pub fn shr(self, o: Bits) -> Bits
        ensures { result ≡ bits.shr self o }
    {
        let n = self.width.bits();
        Bits::of(self.width, total_right(self.value, o.value, n))
    }

    /// Shifts to the right by the number of `o`, with copies of the sign bit: all sign bits where
    /// the number is the width or more.
    #[inline(always)]
    #[tactic(auto, using(std::proofs::lemmas::Bool::Decides::nat_tests), unfolding(crate::specs::BitValue::signed_shifted_right))]
    pub fn sar(self, o: Bits) -> Bits
        ensures { result ≡ bits.sar self o }
    {
        let n = self.width.bits();
        Bits::of(self.width, total_signed_right(self.value, o.value, n))
    }

    /// Whether the two are equal.
    #[inline(always)]
    pub fn eq(self, o: Bits) -> bool
        requires { self.width ≡ o.width }
        ensures { result ≡ bits.eq self o }
    {
        self.value == o.value
    }

    /// Whether the unsigned number is below that of `o`.
    #[inline(always)]
    pub fn lt(self, o: Bits) -> bool
        requires { self.width ≡ o.width }
        ensures { result ≡ bits.lt self o }
    {
        self.value < o.value
    }

    /// Whether the signed number is below that of `o`.
    #[inline(always)]
    pub fn slt(self, o: Bits) -> bool
        requires { self.width ≡ o.width }
        ensures { result ≡ bits.slt self o }
    {
        is_signed_below(self.value, o.value, self.width.bits())
    }

    /// The same number at a width that is not below this one.
    #[inline(always)]
    pub fn extend(self, w: Width) -> Bits
        requires { self.width ≤ w }
        ensures { result ≡ bits.extend self w }
    {
        Bits::of(w, self.value)
    }

    /// The same signed number at a width that is not below this one.
    #[inline(always)]
    pub fn sign_extend(self, w: Width) -> Bits
        requires { self.width ≤ w }
        ensures { result ≡ bits.sign_extend self w }
    {
        Bits::of(w, signed_extended(self.value, self.width.bits(), w.bits()))
    }

    /// The low bits, at a width that is not above this one.
    #[inline(always)]
    pub fn cut(self, w: Width) -> Bits
        requires { w ≤ self.width }
        ensures { result ≡ bits.cut self w }
    {
        Bits::cut_to(w, self.value)
    }

    /// The bits of `self` above those of `o`.
    #[inline(always)]
    pub fn join(self, o: Bits) -> Bits
        requires { self.width + o.width ≤ 128 }
        ensures { result ≡ bits.join self o }
    {
        let (k, m) = (self.width.bits(), o.width.bits());
        Bits::of(Width::of(k + m), joined(self.value, k, o.value, m))
    }

    /// The bits from `hi` down to `lo`, both of them in it. Bit 0 is the lowest.
    #[inline(always)]
    pub fn slice(self, hi: u8, lo: u8) -> Bits
        requires order { lo ≤ hi }
        requires inside { hi < self.width }
        ensures { result ≡ bits.slice self hi lo }
    {
        let n = self.width.bits();
        Bits::cut_to(Width::of(hi - lo + 1), right(self.value, lo, n))
    }
}
