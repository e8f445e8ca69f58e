ghost use Rattle.std.specs.Prelude.{◌≡◌};

use std::alloc::AllocError;
use thiserror::Error;

/// Why no processor is made of a description.
#[derive(Clone, Copy, Debug, PartialEq, Eq, Error)]
pub enum FormFault {
    /// The first thing that isn't built yet begins at this place, the offset of a byte in the text, from 0.
    #[error("byte {at}: not built")]
    Unlike { at: usize },
    /// Memory ran out.
    #[error("out of memory")]
    OutOfMemory,
}

impl From<AllocError> for FormFault {
    ghost use Rattle.vg_form.specs.declared.fault.FormFault.TheVariants.{OutOfMemory};

    ghost from_gives = { λ _ e. e ≡ OutOfMemory };

    fn from(_error: AllocError) -> FormFault {
        FormFault::OutOfMemory
    }
}
