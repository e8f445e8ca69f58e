ghost use Rattle.std.specs.Prelude.{◌≡◌};
ghost use Rattle.vg_top.specs.Faulting.{token_fault_of, rule_fault_of};

use crate::reason::Reason;
use std::alloc::AllocError;
use vg_rule::{DescFault, Rule};
use vg_tok::TokFault;

/// Why no processor is made of a text.
#[derive(Debug, Drop)]
pub(crate) enum DescriptionFault {
    Refused(Reason),
    OutOfMemory,
}

impl DescriptionFault {
    /// The text breaks this rule, here.
    pub(crate) fn broken(rule: Rule, at: usize) -> DescriptionFault
        ensures { result ≡ DescriptionFault.Refused (Reason.Broken rule at) }
    {
        DescriptionFault::Refused(Reason::Broken { rule, at })
    }
}

impl From<TokFault> for DescriptionFault {
    ghost from_gives = { λ fault made. made ≡ token_fault_of fault };

    fn from(fault: TokFault) -> DescriptionFault {
        match fault {
            TokFault::NotUtf8 { at } | TokFault::BadChar { at } | TokFault::Wide { at } => {
                DescriptionFault::broken(Rule::Syntax, at)
            }
            TokFault::OutOfMemory => DescriptionFault::OutOfMemory,
        }
    }
}

impl From<DescFault> for DescriptionFault {
    ghost from_gives = { λ fault made. made ≡ rule_fault_of fault };

    fn from(fault: DescFault) -> DescriptionFault {
        match fault.breach() {
            Some(breach) => DescriptionFault::broken(breach.rule, breach.at),
            None => DescriptionFault::OutOfMemory,
        }
    }
}

impl From<AllocError> for DescriptionFault {
    ghost use Rattle.vg_top.specs.declared.description_fault.DescriptionFault.TheVariants.{OutOfMemory};

    ghost from_gives = { λ _ fault. fault ≡ OutOfMemory };

    fn from(_error: AllocError) -> DescriptionFault {
        DescriptionFault::OutOfMemory
    }
}
