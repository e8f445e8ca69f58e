ghost use Rattle.std.specs.Prelude.{◌≡◌, ◌≤◌, ◌<◌, ◌↔◌, ◌++◌, [], Some, Ok, IfOk, IsErrOf, length, take, min};
ghost use Rattle.vg_io.specs.Count.{Rose};
ghost use Rattle.vg_io.specs.Schedule.{IsFailing};
ghost use Rattle.vg_io.specs.Sink.{append_known, count_taken, CountsPut};
ghost use Rattle.vg_io.specs.MemSink.{calls_after};

use crate::schedule::Schedule;
use crate::{PutFault, Sink};
use std::alloc::Global;
use std::marker::Model;

/// A sink that keeps what it takes.
#[derive(Debug, Drop)]
pub struct MemSink {
    bytes: Vec<u8>,
    piece: usize,
    schedule: Schedule,
    faults: u64,
    nones: u64,
}

impl Model for MemSink {
    ghost use Rattle.vg_io.specs.MemSink.{MemSinkState};

    ghost Value = { MemSinkState };

    ghost view = { λ s. record { bytes = s.bytes.items; piece = s.piece; schedule = s.schedule; faults = s.faults; nones = s.nones } };
}

impl MemSink {
    /// An empty sink that takes at most `piece` bytes a put. The puts whose numbers are in
    /// `failing` fail; they are counted from 0, without those of empty pieces.
    pub fn new(alloc: Global, piece: usize, failing: Vec<u64>) -> MemSink
        ensures { result ≡ record { bytes = []; piece = piece; schedule = record { failing = failing.items; made = 0 }; faults = 0; nones = 0 } }
    {
        MemSink {
            bytes: Vec::new(alloc),
            piece,
            schedule: Schedule::new(failing),
            faults: 0,
            nones: 0,
        }
    }

    /// What was written.
    pub fn bytes(&self) -> &[u8]
        ensures { result.now ≡ self.now.bytes }
    {
        &self.bytes
    }
}

impl Sink for MemSink {
    ghost written = { λ s. Some s.bytes };

    ghost faults = { λ s. s.faults };

    ghost nones = { λ s. s.nones };

    fn put(&mut self, bytes: &[u8]) -> Result<usize, PutFault>
        ensures within { IfOk result (λ count. count ≤ length bytes.now) }
        ensures written { Some self.new.bytes ≡ append_known (Some self.old.bytes) (take (count_taken result) bytes.now) }
        ensures failed { IsErrOf result PutFault.Failed → Rose self.old.faults self.new.faults }
        ensures none { IfOk result (λ count. count ≡ 0 → 0 < length bytes.now → Rose self.old.nones self.new.nones) }
        ensures kept_faults { self.old.faults ≤ self.new.faults }
        ensures kept_nones { self.old.nones ≤ self.new.nones }
        ensures counts { CountsPut result bytes.now self.old.faults self.old.nones self.new.faults self.new.nones }
        ensures empty { bytes.now ≡ [] → (result ≡ Ok 0) × (self.new.faults ≡ self.old.faults) × (self.new.nones ≡ self.old.nones) }

        ensures fails { IsErrOf result PutFault.Failed ↔ ((0 < length bytes.now) × IsFailing self.old.schedule) }
        ensures takes { IfOk result (λ count. count ≡ min self.old.piece (length bytes.now)) }
        ensures calls { self.new.schedule ≡ calls_after self.old.schedule bytes.now }
        ensures piece { self.new.piece ≡ self.old.piece }
    {
        if bytes.is_empty() {
            return Ok(0);
        }
        if self.schedule.next_fails() {
            self.faults = self.faults.saturating_add(1);
            return Err(PutFault::Failed);
        }
        let count = self.piece.min(bytes.len());
        if count == 0 {
            self.nones = self.nones.saturating_add(1);
            return Ok(0);
        }
        self.bytes.extend_from_slice(&bytes[..count])?;
        Ok(count)
    }
}
