ghost use Rattle.std.specs.Prelude.{◌≡◌, ◌≤◌, ℕ, List, Option, Some, IfOk, IfSome, IsErrOf, vec_len};
ghost use Rattle.vg_io.specs.Count.{Rose};
ghost use Rattle.vg_io.specs.Files.{beginning, Asks, CountsLoad};

use crate::LoadFault;
use std::alloc::Global;

/// Where files are loaded from.
///
/// `held` is the map from names to the files' bytes, where the object tells it. `faults` counts
/// failures: each load that fails raises it by one, and one that gives bytes leaves it. It stands still
/// at 2^64 - 1. A load that finds no memory may raise it by one, or leave it. `asked` lists the names
/// loaded so far.
pub trait Files {
    ghost held: { Self → Option (List ℕ → Option (List ℕ)) };

    ghost faults: { Self → ℕ };

    ghost asked: { Self → List (List ℕ) };

    /// Loads the first `most` bytes of the named file, or all of them where it is shorter.
    ///
    /// A name that no file has is a failure. No load changes the files, or whether they are told.
    fn load(&mut self, alloc: Global, name: &str, most: usize) -> Result<Vec<u8>, LoadFault>
        ensures loaded { IfOk result (λ bytes. IfSome (held self.old) (λ files. beginning files name.now most ≡ Some bytes.items)) }
        ensures within { IfOk result (λ bytes. vec_len bytes ≤ most) }
        ensures failed { IsErrOf result LoadFault.Failed → Rose (faults self.old) (faults self.new) }
        ensures kept_faults { faults self.old ≤ faults self.new }
        ensures counts { CountsLoad result (faults self.old) (faults self.new) }
        ensures asked { Asks result name.now (asked self.old) (asked self.new) }
        ensures same { held self.new ≡ held self.old };
}
