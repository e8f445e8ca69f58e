ghost use Rattle.std.specs.Prelude.{◌≡◌};
ghost use Rattle.vg_ir.specs.Shape.{integer_width, is_scalar};

use crate::{Name, Spot};
use sqlite_items::{Boxed, Items};

/// A type of values, or of what stands in memory.
#[derive(Drop)]
pub enum Ty {
    /// An integer of 1, 8, 16, 32 or 64 bits.
    Int(u8),
    /// An address.
    Ptr,
    /// So many elements of one type.
    Array(u64, Boxed<Ty>),
    /// At least one field.
    Struct(Items<Ty>),
    /// A structure by its name.
    Named(Name),
}

/// A type as it is written.
#[derive(Drop)]
pub struct TypeAt {
    pub ty: Ty,
    /// The place of its first lexeme.
    pub at: Spot,
    /// Where the type is an array or a structure: the places of the integers, `ptr`s and names in it, in their order.
    pub leaves: Items<Spot>,
}

/// An integer type where no other type may stand.
#[derive(Clone, Copy, Debug, PartialEq, Eq)]
pub struct IntegerAt {
    /// 1, 8, 16, 32 or 64 bits.
    pub width: u8,
    pub at: Spot,
}

impl Ty {
    /// How many bits it has, where it is an integer.
    pub fn integer_width(&self) -> Option<u8>
        ensures { result ≡ integer_width self.now }
    {
        match self {
            Ty::Int(width) => Some(*width),
            Ty::Ptr | Ty::Array(..) | Ty::Struct(_) | Ty::Named(_) => None,
        }
    }

    /// Whether a value may have it: an integer or an address.
    pub fn is_scalar(&self) -> bool
        ensures { result ≡ is_scalar self.now }
    {
        match self {
            Ty::Int(_) | Ty::Ptr => true,
            Ty::Array(..) | Ty::Struct(_) | Ty::Named(_) => false,
        }
    }
}
