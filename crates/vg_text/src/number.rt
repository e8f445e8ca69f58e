//! Numbers as text: hexadecimal of a fixed length in lower case, and decimal.

ghost use Rattle.std.specs.Prelude.{◌≡◌, ◌++◌, ◌^◌, ◌<◌, ◌≤◌, ◌↔◌, ℕ, List, Some, IfSome, OnOk, OnErr, decimal};
ghost use Rattle.std.specs.Option.{option_map};
ghost use Rattle.vg_text.specs.Number;

use crate::piece::push_bytes;
use std::alloc::AllocError;

/// Writes the number at the end, in this many lower case digits.
pub fn push_hexadecimal(out: &mut Vec<u8>, digits: u8, n: u128) -> Result<(), AllocError>
    requires most { digits ≤ 32 }
    requires fits { n < 16 ^ digits }
    ensures ok { OnOk result (out.new.items ≡ out.old.items ++ Number.hexadecimal digits n) }
    ensures err { OnErr result (out.new.items ≡ out.old.items) }
{
    let mut buffer = [b'0'; 32];
    let mut rest = n;
    for written in 0..usize::from(digits) {
        buffer[31 - written] = hex_digit((rest % 16) as u8);
        rest /= 16;
    }
    push_bytes(out, &buffer[32 - usize::from(digits)..])
}

/// The character of a digit, in lower case.
#[tactic(auto, unfolding(crate::specs::Number::hex_digit))]
fn hex_digit(digit: u8) -> u8
    requires { digit < 16 }
    ensures { result ≡ Number.hex_digit digit }
{
    if digit < 10 {
        b'0' + digit
    } else {
        b'a' - 10 + digit
    }
}

/// Writes the number at the end, in decimal with no zero in front.
pub fn push_decimal(out: &mut Vec<u8>, n: u64) -> Result<(), AllocError>
    ensures ok { OnOk result (out.new.items ≡ out.old.items ++ decimal n) }
    ensures err { OnErr result (out.new.items ≡ out.old.items) }
{
    let mut buffer = [b'0'; 20];
    let mut start = 20;
    let mut rest = n;
    while rest >= 10 {
        start -= 1;
        buffer[start] = b'0' + (rest % 10) as u8;
        rest /= 10;
    }
    start -= 1;
    buffer[start] = b'0' + rest as u8;
    push_bytes(out, &buffer[start..])
}

/// Reads this many lower case hexadecimal digits at the front: the number, and what follows them.
pub fn hexadecimal_at(text: &[u8], digits: u8) -> Option<(u64, &[u8])>
    requires { digits ≤ 16 }
    ensures below { IfSome result (λ found. found.0 < 16 ^ digits) }
    ensures exact { option_map (λ found. (found.0, found.1.now)) result ≡ Number.hexadecimal_at digits text.now }
{
    let len = usize::from(digits);
    if text.len() < len {
        return None;
    }
    let (front, rest) = text.split_at(len);
    let mut n = 0;
    for c in front {
        let digit = hex_value(*c)?;
        n = n * 16 + u64::from(digit);
    }
    Some((n, rest))
}

/// As `hexadecimal_at`, for up to 32 digits.
pub fn wide_hexadecimal_at(text: &[u8], digits: u8) -> Option<(u128, &[u8])>
    requires { digits ≤ 32 }
    ensures below { IfSome result (λ found. found.0 < 16 ^ digits) }
    ensures exact { option_map (λ found. (found.0, found.1.now)) result ≡ Number.hexadecimal_at digits text.now }
{
    let front = digits.saturating_sub(16);
    let (high, text) = hexadecimal_at(text, front)?;
    let (low, rest) = hexadecimal_at(text, digits - front)?;
    Some((u128::from(high) * (1 << 64) + u128::from(low), rest))
}

/// The digit that a character stands for, in lower case.
#[tactic(auto, unfolding(crate::specs::Number::hex_value))]
fn hex_value(c: u8) -> Option<u8>
    ensures { result ≡ Number.hex_value c }
{
    match c {
        b'0'..=b'9' => Some(c - b'0'),
        b'a'..=b'f' => Some(c - b'a' + 10),
        _ => None,
    }
}

/// The number of a whole text of decimal digits, with no sign and no zero in front of another digit;
/// nothing for any other text, and for a number of more than 64 bits.
pub fn decimal_of(text: &[u8]) -> Option<u64>
    ensures { result ≡ Number.option_below (2 ^ 64) (Number.decimal_of text.now) }
{
    let (first, rest) = text.split_first()?;
    if *first == b'0' {
        return if rest.is_empty() { Some(0) } else { None };
    }
    digits_value(text)
}

/// The number of a text of decimal digits, zeros in front allowed.
fn digits_value(text: &[u8]) -> Option<u64>
    ensures { result ≡ Number.option_below (2 ^ 64) (Number.decimal_after 0 text.now) }
{
    let mut n: u64 = 0;
    for c in text {
        let digit = decimal_value(*c)?;
        let shifted = n.checked_mul(10)?;
        n = shifted.checked_add(u64::from(digit))?;
    }
    Some(n)
}

/// The digit that a character stands for.
#[tactic(auto, unfolding(crate::specs::Number::decimal_value))]
fn decimal_value(c: u8) -> Option<u8>
    ensures { result ≡ Number.decimal_value c }
{
    match c {
        b'0'..=b'9' => Some(c - b'0'),
        _ => None,
    }
}

/// A text begins with a number in this many digits, and the rest follows, exactly where it is that
/// number's hexadecimal and then the rest.
pub fn hexadecimal_reads_back()
    ensures { (digits n : ℕ) (text rest : List ℕ) → (Number.hexadecimal_at digits text ≡ Some (n, rest)) ↔ ((n < 16 ^ digits) × (text ≡ Number.hexadecimal digits n ++ rest)) }
{}

/// A text is read as a number exactly where it is that number's decimal, for a number of up to 64 digits,
/// and for one of up to 64 bits.
pub fn decimal_reads_back()
    ensures digits { (n : ℕ) (text : List ℕ) → n < 10 ^ 64 → (Number.decimal_of text ≡ Some n) ↔ (text ≡ decimal n) }
    ensures bits { (n : ℕ) (text : List ℕ) → (Number.option_below (2 ^ 64) (Number.decimal_of text) ≡ Some n) ↔ ((n < 2 ^ 64) × (text ≡ decimal n)) }
{}
