ghost use Rattle.std.specs.Prelude.{◌≡◌, ◌≤◌, ◌<◌, ℕ, List, [], Option, Ok, IfOk, IsErrOf, length, take};
ghost use Rattle.vg_io.specs.Count.{Rose};
ghost use Rattle.vg_io.specs.Sink.{append_known, count_taken, CountsPut};

use crate::PutFault;

/// Where text is put.
///
/// `written` is the bytes taken so far, where the object tells them. `faults` counts the puts that
/// failed, and `nones` those of a piece that isn't empty which took nothing. Each such put raises its
/// count by one, and no other put changes a count; each stands still at 2^64 - 1. Want of memory is
/// counted in neither.
pub trait Sink {
    ghost written: { Self → Option (List ℕ) };

    ghost faults: { Self → ℕ };

    ghost nones: { Self → ℕ };

    /// Takes some of the first of these bytes, and answers how many.
    ///
    /// After an `Err` nothing was taken. No put changes whether the bytes are told.
    fn put(&mut self, bytes: &[u8]) -> Result<usize, PutFault>
        ensures within { IfOk result (λ count. count ≤ length bytes.now) }
        ensures written { written self.new ≡ append_known (written self.old) (take (count_taken result) bytes.now) }
        ensures failed { IsErrOf result PutFault.Failed → Rose (faults self.old) (faults self.new) }
        ensures none { IfOk result (λ count. count ≡ 0 → 0 < length bytes.now → Rose (nones self.old) (nones self.new)) }
        ensures kept_faults { faults self.old ≤ faults self.new }
        ensures kept_nones { nones self.old ≤ nones self.new }
        ensures counts { CountsPut result bytes.now (faults self.old) (nones self.old) (faults self.new) (nones self.new) }
        ensures empty { bytes.now ≡ [] → (result ≡ Ok 0) × (faults self.new ≡ faults self.old) × (nones self.new ≡ nones self.old) };
}
