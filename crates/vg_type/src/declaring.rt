//! The types that declarations give.

ghost use Rattle.std.specs.Prelude.{◌≡◌};
ghost use Rattle.vg_type.specs.Setting.{globals_in};
ghost use Rattle.vg_type.specs.Scope.{width_in, has_machine_width, is_bits as is_bits_of, type_in, counter_sort, address_type as address_type_of};

use crate::operator::bits_type;
use crate::sort::sort_of_type;
use crate::value_type::type_of;
use crate::{Sort, ValueType};
use sqlite_items::Boxed;
use vg_ast::{BitsKind, Expr, Field, Range, TypeExpr};
use vg_inline::{Context, Declared, declared_type, worth_of};
use vg_whole::Worth;

/// The type that a declaration gives, where it has a width of 1 to 128.
pub fn type_in(declared: &TypeExpr<Boxed<Expr>>, context: &Context) -> Option<ValueType>
    ensures { result ≡ type_in (globals_in context.now) declared.now }
{
    type_of(declared_type(declared, context))
}

/// A declared width; a Bool is as wide as one bit.
pub fn width_in(declared: Declared) -> Option<u128>
    ensures { result ≡ width_in declared }
{
    match declared {
        Declared::Sized {
            width: Worth::Whole(width),
            ..
        } => Some(width),
        Declared::Sized { .. } => None,
        Declared::Bool => Some(1),
    }
}

/// Whether a program counter or a format may be so wide.
pub fn has_machine_width(width: Option<u128>) -> bool
    ensures { result ≡ has_machine_width width }
{
    match width {
        None => false,
        Some(width) => width == 16 || width == 32 || width == 64,
    }
}

/// Whether a declared type is `Bits` of a width.
pub fn is_bits(width: Option<u128>, declared: Declared) -> bool
    ensures { result ≡ is_bits_of width declared }
{
    match (width, declared) {
        (
            Some(width),
            Declared::Sized {
                kind: BitsKind::Bits,
                width: Worth::Whole(other),
            },
        ) => width == other,
        _ => false,
    }
}

/// The type of addresses of this width.
pub fn address_type(width: Option<u128>) -> Option<ValueType>
    ensures { result ≡ address_type_of width }
{
    match width {
        None => None,
        Some(width) => bits_type(width),
    }
}

/// What a program counter of a declared type is.
pub fn counter_sort(declared: &TypeExpr<Boxed<Expr>>, context: &Context) -> Sort
    ensures { result ≡ counter_sort (globals_in context.now) declared.now }
{
    let declared = declared_type(declared, context);
    if has_machine_width(width_in(declared)) {
        sort_of_type(type_of(declared))
    } else {
        Sort::Untyped
    }
}
