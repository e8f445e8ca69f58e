//! The bytes that names and quoted texts stand for.

ghost use Rattle.std.specs.Prelude.{◌≡◌, ◌≤◌, ◌+◌, ◌<◌, IfOk, IfSome, length};
ghost use Rattle.std.specs.Int.{is_in_range};
ghost use Rattle.vg_irparse.specs.Text.{hexadecimal_value, hexadecimal, unescaped, bare_bytes, behind_first, name_bytes, name_of};
ghost use Rattle.vg_irparse.specs.Escape.{digits_at, backslash_at, escape_at};

use sqlite_items::Items;
use std::alloc::{AllocError, Global};
use vg_ir::{Name, Text};

fn is_decimal(byte: u8) -> bool
    ensures { result ≡ is_in_range 48 57 byte }
{
    (b'0'..=b'9').contains(&byte)
}

fn is_lower(byte: u8) -> bool
    ensures { result ≡ is_in_range 97 102 byte }
{
    (b'a'..=b'f').contains(&byte)
}

fn is_upper(byte: u8) -> bool
    ensures { result ≡ is_in_range 65 70 byte }
{
    (b'A'..=b'F').contains(&byte)
}

/// The value of a hexadecimal digit.
fn hexadecimal_value(byte: u8) -> Option<u8>
    ensures value { result ≡ hexadecimal_value byte }
    ensures most { IfSome result (λ value. value < 16) }
{
    if is_decimal(byte) {
        Some(byte - 48)
    } else if is_lower(byte) {
        Some(byte - 87)
    } else if is_upper(byte) {
        Some(byte - 55)
    } else {
        None
    }
}

/// The byte of two hexadecimal digits.
fn hexadecimal(high: u8, low: u8) -> Option<u8>
    ensures { result ≡ hexadecimal high low }
{
    let high = hexadecimal_value(high)?;
    let low = hexadecimal_value(low)?;
    Some(high * 16 + low)
}

fn digits_at(first: u8, rest: &[u8]) -> (u8, usize)
    ensures found { result ≡ digits_at first rest.now }
    ensures within { result.1 ≤ length rest.now + 1 }
{
    let Some((second, _)) = rest.split_first() else {
        return (b'\\', 0);
    };
    match hexadecimal(first, *second) {
        Some(byte) => (byte, 2),
        None => (b'\\', 0),
    }
}

fn backslash_at(rest: &[u8]) -> (u8, usize)
    ensures found { result ≡ backslash_at rest.now }
    ensures within { result.1 ≤ length rest.now }
{
    let Some((first, more)) = rest.split_first() else {
        return (b'\\', 0);
    };
    if *first == b'\\' {
        return (b'\\', 1);
    }
    digits_at(*first, more)
}

/// What a byte of a quoted text stands for together with the bytes behind it, and how many of these it takes.
fn escape_at(byte: u8, rest: &[u8]) -> (u8, usize)
    ensures found { result ≡ escape_at byte rest.now }
    ensures within { result.1 ≤ length rest.now }
{
    if byte == b'\\' {
        return backslash_at(rest);
    }
    (byte, 0)
}

/// What a quoted text stands for behind its opening quote.
fn unescaped(alloc: Global, text: &[u8]) -> Result<Text, AllocError>
    ensures { IfOk result (λ bytes. bytes ≡ unescaped text.now) }
{
    let mut bytes = Items::new(alloc);
    let mut rest = text;
    while !rest.is_empty() {
        let Some((first, behind)) = rest.split_first() else {
            return Ok(bytes);
        };
        if *first == b'"' {
            return Ok(bytes);
        }
        let (byte, skipped) = escape_at(*first, behind);
        let (_, after) = behind.split_at(skipped);
        bytes.push(byte)?;
        rest = after;
    }
    Ok(bytes)
}

/// The bytes of a name that is written without a `%` or `@`, or of a quoted text.
pub fn bare_bytes(alloc: Global, text: &[u8]) -> Result<Text, AllocError>
    ensures { IfOk result (λ bytes. bytes ≡ bare_bytes text.now) }
{
    if let Some((first, rest)) = text.split_first() {
        if *first == b'"' {
            return unescaped(alloc, rest);
        }
    }
    Items::from_slice(alloc, text)
}

fn behind_first(text: &[u8]) -> &[u8]
    ensures { result.now ≡ behind_first text.now }
{
    match text.split_first() {
        Some((_, rest)) => rest,
        None => text,
    }
}

/// A name that is written with its `%` or `@`.
pub fn name_of(alloc: Global, text: &[u8]) -> Result<Name, AllocError>
    ensures { IfOk result (λ name. name ≡ name_of (name_bytes text.now)) }
{
    let text = bare_bytes(alloc, behind_first(text))?;
    Ok(Name { unit: 0, text })
}
