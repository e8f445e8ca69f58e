ghost use Rattle.std.specs.Prelude.{◌≡◌};

use crate::{Name, Spot, What};
use std::alloc::AllocError;
use thiserror::Error;

/// Why the text of a module isn't compiled: the first fault that it has, in this order, and its place.
#[derive(Debug, Drop, Error)]
pub enum IrFault {
    /// The text leaves the grammar here, and not at a construct of a name of its own.
    #[error("syntax error")]
    Syntax { at: Spot },
    /// The text leaves the grammar here, at this construct.
    #[error("a construct that isn't accepted")]
    Named { at: Spot, what: What },
    /// An operand, a result, an initialiser or a call hasn't the type that its instruction needs, or a name has no
    /// definition, or two.
    #[error("a wrong type, or a name without one definition")]
    Typing { at: Spot },
    /// Some path from the entry block leads to a use of this value without passing its definition. The block is that of
    /// the use; of a use in a phi, the block that it comes from.
    #[error("a value may be read before it is set")]
    Unset { value: Name, block: Name },
    /// The blocks that a phi lists aren't the predecessors of its block, or it lists one twice with different operands; or
    /// the entry block is a branch's target.
    #[error("a phi that doesn't list the predecessors of its block")]
    Phi { at: Spot },
    /// No function has the name that the run is to begin at.
    #[error("no function of this name")]
    NoEntry,
    /// The arguments aren't as many as the parameters, or one doesn't fit its type.
    #[error("arguments that don't fit the parameters")]
    Args,
    /// The module is larger than what is compiled.
    #[error("a limit is exceeded")]
    Limit { at: Spot },
    /// Memory ran out.
    #[error("out of memory")]
    OutOfMemory,
}

impl From<AllocError> for IrFault {
    ghost use Rattle.vg_ir.specs.declared.fault.IrFault.TheVariants.{OutOfMemory};

    ghost from_gives = { λ _ e. e ≡ OutOfMemory };

    fn from(_error: AllocError) -> IrFault {
        IrFault::OutOfMemory
    }
}
