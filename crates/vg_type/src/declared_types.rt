//! The first places in the types that items declare.

ghost use Rattle.std.specs.Prelude.{◌≡◌};
ghost use Rattle.vg_type.specs.FirstPlaces.{first_places};
ghost use Rattle.vg_type.specs.Item.{type_start as start_of_type, in_type as faults_in_type, forbidden as forbidden_type, misfit as misfit_type, is_bool_type as is_bool_declared, is_bits_type as is_bits_declared, no_bool as no_bool_of, index_faults, is_no_machine_width as is_no_machine, counter_faults, is_other as is_other_type, cell_faults, memory_faults, differ as widths_differ, is_wrong_format as is_wrong_format_of, format_type_faults};
ghost use Rattle.vg_type.specs.Setting.{scope_in, setting_in};

use crate::declaring::{has_machine_width, is_bits, width_in};
use crate::first_places::FirstPlaces;
use crate::judging::written;
use crate::names::Names;
use crate::places::earlier;
use crate::setting::Setting;
use crate::settling::told;
use sqlite_items::Boxed;
use vg_ast::{BitsKind, Expr, TypeExpr};
use vg_inline::{Declared, declared_type};

/// The place of the first token of a type.
fn type_start(declared: &TypeExpr<Boxed<Expr>>) -> usize
    ensures { result ≡ start_of_type declared.now }
{
    match declared {
        TypeExpr::Sized { at, .. } | TypeExpr::Bool { at } => *at,
        TypeExpr::Alias(name) => name.at,
    }
}

/// The first places in a type as it is written, outside of all inner names.
pub fn in_type(declared: &TypeExpr<Boxed<Expr>>, setting: &Setting) -> FirstPlaces
    ensures { result ≡ first_places (faults_in_type (scope_in setting.now.context.now) declared.now) }
{
    let found = written(declared, &Names::Nothing, setting);
    FirstPlaces {
        width: found.width,
        range: found.range,
    }
}

/// The first token of a type, where its place forbids it.
fn forbidden(test: bool, declared: &TypeExpr<Boxed<Expr>>) -> FirstPlaces
    ensures { result ≡ first_places (forbidden_type test declared.now) }
{
    FirstPlaces {
        width: told(test, type_start(declared)),
        range: None,
    }
}

/// The first token of a type that isn't as wide as its place asks for.
fn misfit(test: bool, declared: &TypeExpr<Boxed<Expr>>) -> FirstPlaces
    ensures { result ≡ first_places (misfit_type test declared.now) }
{
    FirstPlaces {
        width: None,
        range: told(test, type_start(declared)),
    }
}

fn is_bool_type(declared: Declared) -> bool
    ensures { result ≡ is_bool_declared declared }
{
    match declared {
        Declared::Bool => true,
        Declared::Sized { .. } => false,
    }
}

fn is_bits_type(declared: Declared) -> bool
    ensures { result ≡ is_bits_declared declared }
{
    match declared {
        Declared::Sized {
            kind: BitsKind::Bits,
            ..
        } => true,
        _ => false,
    }
}

/// Those in the type of a register or a program counter, which isn't Bool.
pub fn no_bool(declared: &TypeExpr<Boxed<Expr>>, setting: &Setting) -> FirstPlaces
    ensures { result ≡ first_places (no_bool_of (setting_in setting.now.context.now) declared.now) }
{
    let test = is_bool_type(declared_type(declared, setting.context));
    earlier(forbidden(test, declared), in_type(declared, setting))
}

/// Those in the index type of a register file, which is Bits.
pub fn index(declared: &TypeExpr<Boxed<Expr>>, setting: &Setting) -> FirstPlaces
    ensures { result ≡ first_places (index_faults (setting_in setting.now.context.now) declared.now) }
{
    let test = !is_bits_type(declared_type(declared, setting.context));
    earlier(forbidden(test, declared), in_type(declared, setting))
}

fn is_no_machine_width(width: Option<u128>) -> bool
    ensures { result ≡ is_no_machine width }
{
    match width {
        None => false,
        Some(width) => !has_machine_width(Some(width)),
    }
}

/// Those in the type of a program counter, which is 16, 32 or 64 bits wide.
pub fn counter(declared: &TypeExpr<Boxed<Expr>>, setting: &Setting) -> FirstPlaces
    ensures { result ≡ first_places (counter_faults (setting_in setting.now.context.now) declared.now) }
{
    let test = is_no_machine_width(width_in(declared_type(declared, setting.context)));
    earlier(misfit(test, declared), no_bool(declared, setting))
}

/// Whether a type isn't Bits of a width that is known.
fn is_other(width: Option<u128>, declared: Declared) -> bool
    ensures { result ≡ is_other_type width declared }
{
    match width {
        None => false,
        Some(width) => !is_bits(Some(width), declared),
    }
}

fn cell(width: Option<u128>, declared: &TypeExpr<Boxed<Expr>>, setting: &Setting) -> FirstPlaces
    ensures { result ≡ first_places (cell_faults (setting_in setting.now.context.now) width declared.now) }
{
    let test = is_other(width, declared_type(declared, setting.context));
    earlier(misfit(test, declared), in_type(declared, setting))
}

/// Those in the types of a memory, which goes from addresses to bytes.
pub fn memory(
    address: &TypeExpr<Boxed<Expr>>,
    byte: &TypeExpr<Boxed<Expr>>,
    setting: &Setting,
) -> FirstPlaces
    ensures { result ≡ first_places (memory_faults (setting_in setting.now.context.now) address.now byte.now) }
{
    earlier(
        cell(setting.width, address, setting),
        cell(Some(8), byte, setting),
    )
}

fn differ(a: Option<u128>, b: Option<u128>) -> bool
    ensures { result ≡ widths_differ a b }
{
    match (a, b) {
        (Some(a), Some(b)) => a != b,
        _ => false,
    }
}

fn is_wrong_format(first: Option<u128>, width: Option<u128>) -> bool
    ensures { result ≡ is_wrong_format_of first width }
{
    is_no_machine_width(width) || differ(first, width)
}

/// Those in the type of a format, which is 16, 32 or 64 bits wide, and as wide as the first one.
pub fn format(declared: &TypeExpr<Boxed<Expr>>, setting: &Setting) -> FirstPlaces
    ensures { result ≡ first_places (format_type_faults (setting_in setting.now.context.now) declared.now) }
{
    let width = width_in(declared_type(declared, setting.context));
    let test = is_wrong_format(setting.word, width);
    earlier(misfit(test, declared), in_type(declared, setting))
}
