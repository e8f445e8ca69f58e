use std::alloc::AllocError;
use thiserror::Error;
use vg_isa::InstrId;

/// Why a description's instructions have no place in its pipeline.
#[derive(Clone, Copy, Debug, PartialEq, Eq, Error)]
pub enum PlaceFault {
    /// A part of this instruction is ready later than the stage that needs it. `at` is the byte of the text where
    /// it stands, and `stage` the stage that needs it.
    #[error("the part at byte {at} is ready later than stage {stage}, which needs it")]
    Unplaced {
        instr: InstrId,
        at: usize,
        stage: u8,
    },
    /// There was no memory for the plan.
    #[error("out of memory")]
    OutOfMemory,
}

impl From<AllocError> for PlaceFault {
    ghost use Rattle.std.specs.Prelude.{◌≡◌};
    ghost use Rattle.vg_place.specs.declared.place_fault.PlaceFault.TheVariants.{OutOfMemory};

    ghost from_gives = { λ _ fault. fault ≡ OutOfMemory };

    fn from(_error: AllocError) -> PlaceFault {
        PlaceFault::OutOfMemory
    }
}
