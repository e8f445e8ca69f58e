#![tactic(auto, using(crate::proofs::WidthLemmas::width_steps))]

ghost use Rattle.std.specs.Prelude.{◌≡◌, ◌^◌, nat_lt};
ghost use Rattle.vg_type.specs.ValueType.{width_of, fits as fits_type, sized_type, same_kind as kinds_alike, same_type, type_of as type_declared};

use vg_ast::BitsKind;
use vg_inline::Declared;
use vg_whole::Worth;

/// A type of values.
#[derive(Clone, Copy, Debug, PartialEq, Eq)]
pub enum ValueType {
    /// `Bits<width>`, `UInt<width>` or `SInt<width>`.
    Sized { kind: BitsKind, width: u8 },
    Bool,
}

/// How wide the values of a type are.
pub fn width_of(has: ValueType) -> u8
    ensures { result ≡ width_of has }
{
    match has {
        ValueType::Sized { width, .. } => width,
        ValueType::Bool => 1,
    }
}

/// Whether a number is below 2 to a width.
fn is_below(value: u128, width: u8) -> bool
    ensures { result ≡ nat_lt value (2 ^ width) }
{
    if width >= 128 {
        return true;
    }
    value >> width == 0
}

/// Whether a whole number fits a type.
pub fn fits(value: u128, has: ValueType) -> bool
    ensures { result ≡ fits_type value has }
{
    is_below(value, width_of(has))
}

/// A type of this kind, where its width is 1 to 128.
pub fn sized_type(kind: BitsKind, width: u128) -> Option<ValueType>
    ensures { result ≡ sized_type kind width }
{
    if width >= 1 && width <= 128 {
        return Some(ValueType::Sized {
            kind,
            width: width as u8,
        });
    }
    None
}

/// Whether two types have one kind and one width.
pub fn same_type(a: ValueType, b: ValueType) -> bool
    ensures { result ≡ same_type a b }
{
    match (a, b) {
        (
            ValueType::Sized { kind, width },
            ValueType::Sized {
                kind: other_kind,
                width: other_width,
            },
        ) => same_kind(kind, other_kind) && width == other_width,
        (ValueType::Bool, ValueType::Bool) => true,
        _ => false,
    }
}

fn same_kind(a: BitsKind, b: BitsKind) -> bool
    ensures { result ≡ kinds_alike a b }
{
    match (a, b) {
        (BitsKind::Bits, BitsKind::Bits)
        | (BitsKind::UInt, BitsKind::UInt)
        | (BitsKind::SInt, BitsKind::SInt) => true,
        _ => false,
    }
}

/// What a declared type is, where its width is 1 to 128.
pub fn type_of(declared: Declared) -> Option<ValueType>
    ensures { result ≡ type_declared declared }
{
    match declared {
        Declared::Sized {
            kind,
            width: Worth::Whole(width),
        } => sized_type(kind, width),
        Declared::Sized { .. } => None,
        Declared::Bool => Some(ValueType::Bool),
    }
}
