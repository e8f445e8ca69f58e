//! The declarations that stand in front of the instructions.

ghost use Rattle.std.specs.Prelude.{◌≡◌};
ghost use Rattle.vg_form.specs.Description.{are_fields, are_ranges, behind, behind_declarations, is_counter, is_field, is_file, is_format, is_low, is_memory, is_word, place_of};
ghost use Rattle.vg_form.specs.Given.{all_doing, values_in};
ghost use Rattle.vg_form.specs.Shape.{is_bits, is_whole};
ghost use Rattle.vg_form.specs.Declaration.{is_declared};
ghost use Rattle.vg_form.specs.Finding.{FindsSo};

use crate::declaration::Declaration;
use crate::fault::FormFault;
use crate::naming::is_named;
use crate::remaining::Remaining;
use sqlite_items::Boxed;
use vg_ast::{BitsKind, Expr, Field, Item, Range, TypeExpr};
use vg_inline::{Context, Declared, declared_type, worth_of};
use vg_whole::Worth;

/// The place of the first token of an item.
pub(crate) fn place_of(item: &Item) -> usize
    ensures { result ≡ place_of item.now }
{
    match item {
        Item::Constant { at, .. }
        | Item::Using { at, .. }
        | Item::Function { at, .. }
        | Item::ProgramCounter { at, .. }
        | Item::Memory { at, .. }
        | Item::Register { at, .. }
        | Item::RegisterFile { at, .. }
        | Item::Format { at, .. }
        | Item::Instruction { at, .. }
        | Item::Encoding { at, .. }
        | Item::Assembly { at, .. } => *at,
    }
}

fn is_whole(number: u128, worth: Worth) -> bool
    ensures { result ≡ is_whole number worth }
{
    match worth {
        Worth::Whole(other) => number == other,
        Worth::NoValue | Worth::Typed => false,
    }
}

pub(crate) fn is_bits(width: u128, declared: Declared) -> bool
    ensures { result ≡ is_bits width declared }
{
    match declared {
        Declared::Sized {
            kind: BitsKind::Bits,
            width: other,
        } => is_whole(width, other),
        _ => false,
    }
}

/// Whether a type is `Bits<width>`.
fn is_word(width: u128, declared: &TypeExpr<Boxed<Expr>>, context: &Context) -> bool
    ensures { result ≡ is_word (values_in context.now) width declared.now }
{
    is_bits(width, declared_type(declared, context))
}

fn is_counter(item: &Item, context: &Context) -> bool
    ensures { result ≡ is_counter (values_in context.now) item.now }
{
    match item {
        Item::ProgramCounter { name, declared, .. } => {
            is_named(name.text.as_slice(), b"PC") && is_word(32, declared, context)
        }
        _ => false,
    }
}

fn is_memory(item: &Item, context: &Context) -> bool
    ensures { result ≡ is_memory (values_in context.now) item.now }
{
    match item {
        Item::Memory {
            name,
            address,
            cell,
            ..
        } => is_named(name.text.as_slice(), b"MEM")
            && is_word(32, address, context)
            && is_word(8, cell, context),
        _ => false,
    }
}

/// Whether an expression that may be left out stands there, and is this number.
fn is_there(number: u128, e: &Option<Boxed<Expr>>, context: &Context) -> bool
    ensures { result ≡ is_low (values_in context.now) number e.now }
{
    match e {
        None => false,
        Some(e) => is_whole(number, worth_of(e.get(), context)),
    }
}

fn is_file(item: &Item, context: &Context) -> bool
    ensures { result ≡ is_file (values_in context.now) item.now }
{
    match item {
        Item::RegisterFile {
            name,
            index,
            declared,
            zero,
            ..
        } => {
            is_named(name.text.as_slice(), b"X")
                && is_word(5, index, context)
                && is_word(32, declared, context)
                && is_there(0, zero, context)
        }
        _ => false,
    }
}

/// Whether this is the one range.
fn are_ranges(high: u128, low: u128, ranges: &[Range], context: &Context) -> bool
    ensures { result ≡ are_ranges (values_in context.now) high low ranges.now }
{
    match ranges {
        [range] => is_whole(high, worth_of(range.high.get(), context))
            && is_there(low, &range.low, context),
        _ => false,
    }
}

/// Whether a field is `name [high..low]`.
fn is_field(name: &[u8], high: u128, low: u128, field: &Field, context: &Context) -> bool
    ensures { result ≡ is_field (values_in context.now) name.now high low field.now }
{
    is_named(field.name.text.as_slice(), name)
        && are_ranges(high, low, field.ranges.as_slice(), context)
}

fn are_fields(fields: &[Field], context: &Context) -> bool
    ensures { result ≡ are_fields (values_in context.now) fields.now }
{
    match fields {
        [f7, rs2, rs1, f3, rd, op] => {
            is_field(b"f7", 31, 25, f7, context)
                && is_field(b"rs2", 24, 20, rs2, context)
                && is_field(b"rs1", 19, 15, rs1, context)
                && is_field(b"f3", 14, 12, f3, context)
                && is_field(b"rd", 11, 7, rd, context)
                && is_field(b"op", 6, 0, op, context)
        }
        _ => false,
    }
}

fn is_format(item: &Item, context: &Context) -> bool
    ensures { result ≡ is_format (values_in context.now) item.now }
{
    match item {
        Item::Format {
            name,
            declared,
            fields,
            ..
        } => {
            is_named(name.text.as_slice(), b"R")
                && is_word(32, declared, context)
                && are_fields(fields.as_slice(), context)
        }
        _ => false,
    }
}

fn is_declared(declaration: Declaration, item: &Item, context: &Context) -> bool
    ensures { result ≡ is_declared (values_in context.now) declaration item.now }
{
    match declaration {
        Declaration::Counter => is_counter(item, context),
        Declaration::Memory => is_memory(item, context),
        Declaration::File => is_file(item, context),
        Declaration::Format => is_format(item, context),
    }
}

/// What follows a declaration. Where there is no item, the closing brace is told.
fn behind<'a>(
    declaration: Declaration,
    close: usize,
    items: &'a [Remaining<'a>],
    context: &Context,
) -> Result<&'a [Remaining<'a>], FormFault>
    ensures { FindsSo (λ rest. all_doing context.now rest.now) result (behind (is_declared (values_in context.now) declaration) close (all_doing context.now items.now)) }
{
    let Some((first, more)) = items.split_first() else {
        return Err(FormFault::Unlike { at: close });
    };
    if is_declared(declaration, first.item, context) {
        Ok(more)
    } else {
        Err(FormFault::Unlike {
            at: place_of(first.item),
        })
    }
}

/// What follows the declarations.
pub(crate) fn behind_declarations<'a>(
    close: usize,
    items: &'a [Remaining<'a>],
    context: &Context,
) -> Result<&'a [Remaining<'a>], FormFault>
    ensures { FindsSo (λ rest. all_doing context.now rest.now) result (behind_declarations (values_in context.now) close (all_doing context.now items.now)) }
{
    let rest = behind(Declaration::Counter, close, items, context)?;
    let rest = behind(Declaration::Memory, close, rest, context)?;
    let rest = behind(Declaration::File, close, rest, context)?;
    behind(Declaration::Format, close, rest, context)
}
