ghost use Rattle.std.specs.Prelude.{◌≡◌, ◌≤◌, ◌<◌, ◌^◌, IfOk, IfSome};
ghost use Rattle.vg_top.specs.Driving.{IsWithin, FitsLimit, CountsLoaded, AsksFor};

use std::alloc::{AllocError, Global};
use vg_io::{Files, LoadFault};

/// What a load of a file of bounded length gave.
#[derive(Drop)]
pub(crate) enum Loaded {
    /// The load failed.
    Failed,
    /// The file has more bytes than its limit.
    TooLong,
    /// All bytes of the file.
    Text(Vec<u8>),
}

/// Loads a file of at most `limit` bytes.
pub(crate) fn load_within<F: Files>(
    alloc: Global,
    files: &mut F,
    name: &str,
    limit: usize,
) -> Result<Loaded, AllocError>
    requires { limit < 2 ^ 32 }
    ensures told { IfOk result (λ loaded. IfSome (F.held files.old) (λ held. IsWithin (held name.now) limit loaded)) }
    ensures within { IfOk result (λ loaded. FitsLimit limit loaded) }
    ensures asked { AsksFor result name.now (F.asked files.old) (F.asked files.new) }
    ensures counts { CountsLoaded result (F.faults files.old) (F.faults files.new) }
    ensures kept_faults { F.faults files.old ≤ F.faults files.new }
    ensures same { F.held files.new ≡ F.held files.old }
{
    match files.load(alloc, name, limit + 1) {
        Ok(bytes) => {
            if bytes.len() > limit {
                return Ok(Loaded::TooLong);
            }
            Ok(Loaded::Text(bytes))
        }
        Err(LoadFault::Failed) => Ok(Loaded::Failed),
        Err(LoadFault::OutOfMemory) => Err(AllocError),
    }
}
