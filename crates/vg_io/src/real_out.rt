ghost use Rattle.std.specs.Prelude.{◌≡◌, ◌≤◌, ◌<◌, [], None, Ok, IfOk, IsErrOf, length};
ghost use Rattle.vg_io.specs.Count.{Rose};
ghost use Rattle.vg_io.specs.Sink.{CountsPut};

use crate::{PutFault, Sink};
use std::marker::Model;

/// The standard output. It tells no bytes.
#[derive(Drop)]
pub struct RealOut<'a, P> {
    runtime: &'a P,
    faults: u64,
    nones: u64,
}

impl<'a, P> Model for RealOut<'a, P> {
    ghost use Rattle.vg_io.specs.RealOut.{RealOutState};

    ghost Value = { RealOutState };

    ghost view = { λ out. record { faults = out.faults; nones = out.nones } };
}

impl<'a, P: Print> RealOut<'a, P> {
    /// The output of this runtime.
    pub fn new(runtime: &'a P) -> RealOut<'a, P>
        ensures { result ≡ record { faults = 0; nones = 0 } }
    {
        RealOut {
            runtime,
            faults: 0,
            nones: 0,
        }
    }
}

impl<P: Print> Sink for RealOut<'_, P> {
    ghost written = { λ _. None };

    ghost faults = { λ out. out.faults };

    ghost nones = { λ out. out.nones };

    fn put(&mut self, bytes: &[u8]) -> Result<usize, PutFault>
        ensures within { IfOk result (λ count. count ≤ length bytes.now) }
        ensures failed { IsErrOf result PutFault.Failed → Rose self.old.faults self.new.faults }
        ensures none { IfOk result (λ count. count ≡ 0 → 0 < length bytes.now → Rose self.old.nones self.new.nones) }
        ensures kept_faults { self.old.faults ≤ self.new.faults }
        ensures kept_nones { self.old.nones ≤ self.new.nones }
        ensures counts { CountsPut result bytes.now self.old.faults self.old.nones self.new.faults self.new.nones }
        ensures empty { bytes.now ≡ [] → (result ≡ Ok 0) × (self.new.faults ≡ self.old.faults) × (self.new.nones ≡ self.old.nones) }

        ensures never { IsErrOf result PutFault.OutOfMemory → ⊥ }
    {
        if bytes.is_empty() {
            return Ok(0);
        }
        match self.runtime.write_some(bytes) {
            Ok(0) => {
                self.nones = self.nones.saturating_add(1);
                Ok(0)
            }
            Ok(count) => Ok(count),
            Err(_) => {
                self.faults = self.faults.saturating_add(1);
                Err(PutFault::Failed)
            }
        }
    }
}
