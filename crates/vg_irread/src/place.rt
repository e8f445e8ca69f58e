//! What is wanted at a place.

ghost use Rattle.std.specs.Prelude.{◌≡◌};
ghost use Rattle.vg_irparse.specs.ReadingType.{wanted};
ghost use Rattle.vg_irread.specs.ReadingOperand.{behind};

use vg_ir::Spot;
use vg_irparse::{Role, Wanted};

/// A place where this is wanted, not behind a type.
pub fn wanted(role: Role) -> Wanted
    ensures { result ≡ wanted role }
{
    Wanted {
        role,
        behind_type: false,
    }
}

/// A place behind a type where this is wanted.
pub fn behind(role: Role) -> Wanted
    ensures { result ≡ behind role }
{
    Wanted {
        role,
        behind_type: true,
    }
}

/// A place in the one text that is read.
pub fn spot(at: usize) -> Spot
    ensures { result ≡ record { unit = 0; at = at } }
{
    Spot { unit: 0, at }
}
