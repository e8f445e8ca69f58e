ghost use Rattle.std.specs.Prelude.{◌≡◌, ◌<◌, ◌≤◌};
ghost use Rattle.vg_ir.specs.Shape.{number_fits, number_of};

/// A whole number as it is written: the magnitude, or that less than 0. At an integer type of N bits it is from -2^(N-1)
/// to 2^N - 1. At another type, where none belongs, a magnitude of 2^64 or more is kept as 2^64 - 1.
#[derive(Clone, Copy, Debug, PartialEq, Eq)]
pub struct Number {
    /// A `-` stands before it.
    pub negative: bool,
    pub magnitude: u64,
}

impl Number {
    /// Whether it is a number of an integer of so many bits.
    pub fn fits(self, width: u8) -> bool
        requires wide { 0 < width }
        requires narrow { width ≤ 64 }
        ensures { result ≡ number_fits width self }
    {
        let magnitude = self.magnitude as u128;
        if self.negative {
            magnitude <= 1u128 << (width - 1)
        } else {
            magnitude < 1u128 << width
        }
    }

    /// The number of so many bits that it stands for: itself modulo 2 to the width.
    pub fn modulo(self, width: u8) -> u64
        requires { width ≤ 64 }
        ensures { result ≡ number_of width self }
    {
        let space = 1u128 << width;
        let low = self.magnitude as u128 % space;
        if self.negative {
            ((space - low) % space) as u64
        } else {
            low as u64
        }
    }
}
