use vg_ast::BitsKind;
use vg_whole::Worth;

/// A declared type with everything in place of its names.
#[derive(Clone, Copy, Debug, PartialEq, Eq)]
pub enum Declared {
    /// `Bits<width>`, `UInt<width>` or `SInt<width>`.
    Sized { kind: BitsKind, width: Worth },
    Bool,
}
