ghost use Rattle.std.specs.Prelude.{◌≡◌};
ghost use Rattle.vg_ir.specs.Lookup.{same_name};

use crate::{Spot, Text};

/// A name of a module without its `%` or `@`, and with the bytes that its escapes stand for.
#[derive(Debug, Drop)]
pub struct Name {
    /// Which text of a program it is from: 0 where there is one text alone.
    pub unit: u32,
    pub text: Text,
}

/// A name and the place where it stands. A parameter or a first block without a name of its own has the place of its
/// first lexeme.
#[derive(Debug, Drop)]
pub struct NameAt {
    pub name: Name,
    pub at: Spot,
}

impl Name {
    /// Whether both are one name.
    pub fn is(&self, other: &Name) -> bool
        ensures { result ≡ same_name self.now other.now }
    {
        self.unit == other.unit && self.text.as_slice() == other.text.as_slice()
    }
}
