ghost use Rattle.std.specs.Prelude.{◌≡◌, ℕ, ◌<◌, ◌≤◌, SomeIff};

use std::marker::Model;

/// The number of bits of a value, 1 to 128.
#[derive(Clone, Copy, PartialEq, Eq, PartialOrd, Ord, Hash, Debug)]
pub struct Width(u8);

impl Model for Width {
    ghost Value = { ℕ };

    ghost view = { λ w. w.0 };

    ghost invariant = { λ w. (0 < w.0) × (w.0 ≤ 128) };

    ghost inverse = { λ n. record { 0 = n } };
}

impl Width {
    /// The width of `n` bits, or None where `n` is 0 or above 128.
    #[inline(always)]
    pub fn new(n: u32) -> Option<Width>
        ensures { SomeIff result ((0 < n) × (n ≤ 128)) n }
    {
        if 0 < n && n <= 128 {
            Some(Width(n as u8))
        } else {
            None
        }
    }

    /// The width of `n` bits.
    #[inline(always)]
    pub fn of(n: u8) -> Width
        requires least { 0 < n }
        requires most { n ≤ 128 }
        ensures { result ≡ n }
    {
        Width(n)
    }

    /// The number of bits.
    #[inline(always)]
    pub fn bits(self) -> u8
        ensures value { result ≡ self }
        ensures least { 0 < result }
        ensures most { result ≤ 128 }
    {
        self.0
    }
}
