ghost use Rattle.std.specs.Prelude.{◌≡◌, ◌<◌, ◌^◌, length};

/// A page: 256 bytes whose addresses differ in the lowest eight bits alone.
#[derive(Drop)]
pub struct Page {
    /// The address of its first byte, over 256.
    pub number: u64,
    pub bytes: [u8; 256],
    ghost number_fits: { number < 2 ^ 56 },
    ghost whole: { length bytes ≡ 256 },
}

impl Page {
    ghost use Rattle.std.specs.Prelude.{◌≡◌, ◌+◌, ◌*◌, ◌^◌, ◌<◌, ◌≤◌, replicate, slice_index, IfSome};
    ghost use Rattle.vg_mem.specs.Bytes.{IsNextSet};
    ghost use Rattle.vg_mem.specs.Pages.{gathered, written};

    /// The page with this number, of zeros.
    pub fn blank(number: u64) -> Page
        requires { number < 2 ^ 56 }
        ensures number { result.number ≡ number }
        ensures bytes { result.bytes ≡ replicate 256 0 }
    {
        Page {
            number,
            bytes: [0; 256],
        }
    }

    /// So many bytes from an offset on, the least significant first.
    #[inline(always)]
    pub fn read(&self, at: usize, bytes: u8) -> u128
        requires within { at + bytes ≤ 256 }
        requires few { bytes ≤ 16 }
        ensures value { result ≡ gathered self.now.bytes at bytes }
        ensures fits { result < 2 ^ (8 * bytes) }
    {
        match bytes {
            1 => u128::from(self.bytes[at]),
            2 => u128::from(self.two(at)),
            4 => u128::from(self.four(at)),
            8 => u128::from(self.eight(at)),
            _ => self.read_each(at, bytes),
        }
    }

    #[inline(always)]
    fn two(&self, at: usize) -> u16
        requires { at + 2 ≤ 256 }
        ensures { result ≡ gathered self.now.bytes at 2 }
    {
        u16::from(self.bytes[at]) + 256 * u16::from(self.bytes[at + 1])
    }

    #[inline(always)]
    fn four(&self, at: usize) -> u32
        requires { at + 4 ≤ 256 }
        ensures { result ≡ gathered self.now.bytes at 4 }
    {
        u32::from(self.two(at)) + 65536 * u32::from(self.two(at + 2))
    }

    #[inline(always)]
    fn eight(&self, at: usize) -> u64
        requires { at + 8 ≤ 256 }
        ensures { result ≡ gathered self.now.bytes at 8 }
    {
        u64::from(self.four(at)) + 4294967296 * u64::from(self.four(at + 4))
    }

    /// One byte after the other.
    #[inline(never)]
    fn read_each(&self, at: usize, bytes: u8) -> u128
        requires within { at + bytes ≤ 256 }
        requires few { bytes ≤ 16 }
        ensures value { result ≡ gathered self.now.bytes at bytes }
        ensures fits { result < 2 ^ (8 * bytes) }
    {
        if bytes == 0 {
            return 0;
        }
        u128::from(self.bytes[at]) + 256 * self.read_each(at + 1, bytes - 1)
    }

    /// Writes so many bytes of a number from an offset on, the least significant first.
    #[inline(always)]
    pub fn write(&mut self, at: usize, bytes: u8, value: u128)
        requires within { at + bytes ≤ 256 }
        ensures number { self.new.number ≡ self.old.number }
        ensures bytes { self.new.bytes ≡ written self.old.bytes at bytes value }
    {
        match bytes {
            1 => self.bytes[at] = (value % 256) as u8,
            2 => self.write_two(at, value),
            4 => self.write_four(at, value),
            8 => self.write_eight(at, value),
            _ => self.write_each(at, bytes, value),
        }
    }

    #[inline(always)]
    fn write_two(&mut self, at: usize, value: u128)
        requires { at + 2 ≤ 256 }
        ensures number { self.new.number ≡ self.old.number }
        ensures bytes { self.new.bytes ≡ written self.old.bytes at 2 value }
    {
        self.bytes[at + 1] = (value / 256 % 256) as u8;
        self.bytes[at] = (value % 256) as u8;
    }

    #[inline(always)]
    fn write_four(&mut self, at: usize, value: u128)
        requires { at + 4 ≤ 256 }
        ensures number { self.new.number ≡ self.old.number }
        ensures bytes { self.new.bytes ≡ written self.old.bytes at 4 value }
    {
        self.write_two(at + 2, value / 65536);
        self.write_two(at, value);
    }

    #[inline(always)]
    fn write_eight(&mut self, at: usize, value: u128)
        requires { at + 8 ≤ 256 }
        ensures number { self.new.number ≡ self.old.number }
        ensures bytes { self.new.bytes ≡ written self.old.bytes at 8 value }
    {
        self.write_four(at + 4, value / 4294967296);
        self.write_four(at, value);
    }

    /// One byte after the other, the last first.
    #[inline(never)]
    fn write_each(&mut self, at: usize, bytes: u8, value: u128)
        requires { at + bytes ≤ 256 }
        ensures number { self.new.number ≡ self.old.number }
        ensures bytes { self.new.bytes ≡ written self.old.bytes at bytes value }
    {
        if bytes == 0 {
            return;
        }
        self.write_each(at + 1, bytes - 1, value / 256);
        self.bytes[at] = (value % 256) as u8;
    }

    /// The offset of the first byte from one on that isn't 0.
    pub fn next_set(&self, from: usize) -> Option<usize>
        requires { from ≤ 256 }
        ensures value { IsNextSet (slice_index self.now.bytes) from result }
        ensures within { IfSome result (λ at. at < 256) }
    {
        for at in from..256 {
            if self.bytes[at] != 0 {
                return Some(at);
            }
        }
        None
    }
}
