ghost use Rattle.std.specs.Prelude.{◌≡◌};
ghost use Rattle.vg_top.specs.Reason.{lacking};
ghost use Rattle.vg_top.specs.Needs.{nothing_more};

use vg_isa::Isa;
use vg_rule::Rule;

/// What a command needs of a description, beyond what each description has.
#[derive(Clone, Copy, Debug, PartialEq, Eq)]
pub struct Needs {
    /// An application binary interface.
    pub abi: bool,
    /// A micro architecture.
    pub micro: bool,
}

impl Needs {
    /// Nothing.
    pub(crate) fn nothing_more() -> Needs
        ensures { result ≡ nothing_more }
    {
        Needs {
            abi: false,
            micro: false,
        }
    }

    /// The rule that a description without what is needed is told to break.
    pub(crate) fn lacking(self, isa: &Isa) -> Option<Rule>
        ensures { result ≡ lacking self isa.now }
    {
        if self.abi && isa.abi().is_none() {
            return Some(Rule::AbiRole);
        }
        if self.micro && isa.micro().is_none() {
            return Some(Rule::StageOrder);
        }
        None
    }
}
