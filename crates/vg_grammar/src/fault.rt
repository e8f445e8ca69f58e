ghost use Rattle.std.specs.Prelude.{◌≡◌};

use std::alloc::AllocError;
use vg_isa::{InstrId, Text};

/// Why the lines of a description can't be read.
#[derive(Drop)]
pub enum RulesFault {
    /// A text reads in two ways. The instructions are the first two for which there is such a text, in the order of the
    /// description, perhaps one twice; and this is one.
    Ambiguous { a: InstrId, b: InstrId, text: Text },
    /// Memory ran out.
    OutOfMemory,
}

impl From<AllocError> for RulesFault {
    ghost use Rattle.vg_grammar.specs.declared.fault.RulesFault.TheVariants.{OutOfMemory};

    ghost from_gives = { λ _ fault. fault ≡ OutOfMemory };

    fn from(_error: AllocError) -> RulesFault {
        RulesFault::OutOfMemory
    }
}
