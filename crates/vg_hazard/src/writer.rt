ghost use Rattle.std.specs.Prelude.{◌≡◌};
ghost use Rattle.vg_hazard.specs.Choosing.{may_write};

use vg_bits::Bits;

/// An older instruction that names a location in a write and hasn't done the write's stage.
#[derive(Clone, Copy, Debug, PartialEq, Eq)]
pub struct Writer {
    /// Whether it writes at all; None where that isn't known yet.
    pub guard: Option<bool>,
    /// What it writes; None where that isn't known yet.
    pub value: Option<Bits>,
}

impl Writer {
    /// Its guard isn't known to be false.
    #[inline(always)]
    pub fn may_write(&self) -> bool
        ensures { result ≡ may_write self.now }
    {
        match self.guard {
            Some(guard) => guard,
            None => true,
        }
    }
}
