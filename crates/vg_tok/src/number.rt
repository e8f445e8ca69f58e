ghost use Rattle.std.specs.Prelude.{◌≡◌, ◌≤◌, ◌<◌, ◌+◌, ◌*◌, ◌^◌, ℕ, true, false, take, length};
ghost use Rattle.std.specs.Option.{SomeIff};
ghost use Rattle.std.specs.Char.{is_digit, digit_value};
ghost use Rattle.vg_tok.specs.Lexing.{radix, prefix, value_from, begins_with, may_continue};
ghost use Rattle.vg_tok.specs.Front.{digits_len, base_at, number_of, number_at};

use crate::lexeme::{Lexeme, may_continue};

/// The base of a number, which its prefix tells: none, `0x` or `0b`.
#[derive(Clone, Copy, Debug)]
pub(crate) enum Base {
    Decimal,
    Hexadecimal,
    Binary,
}

impl Base {
    fn radix(self) -> u32
        ensures value { result ≡ radix self }
        ensures least { 2 ≤ result }
        ensures greatest { result ≤ 16 }
    {
        match self {
            Base::Decimal => 10,
            Base::Hexadecimal => 16,
            Base::Binary => 2,
        }
    }

    fn prefix_len(self) -> usize
        ensures { result ≡ length (prefix self) }
    {
        match self {
            Base::Decimal => 0,
            Base::Hexadecimal => 2,
            Base::Binary => 2,
        }
    }
}

fn begins_with_digit(text: &[char], base: u32) -> bool
    requires least { 2 ≤ base }
    requires greatest { base ≤ 16 }
    ensures { result ≡ begins_with (λ d. is_digit d base) text.now }
{
    match text.first() {
        Some(first) => first.is_digit(base),
        None => false,
    }
}

fn begins_with_continue(text: &[char]) -> bool
    ensures { result ≡ begins_with may_continue text.now }
{
    match text.first() {
        Some(first) => may_continue(*first),
        None => false,
    }
}

fn base_at(text: &[char]) -> Base
    ensures { result ≡ base_at text.now }
{
    if text.len() < 2 {
        return Base::Decimal;
    }
    let digits = &text[2..];
    if text[0] == '0' && text[1] == 'x' && begins_with_digit(digits, 16) {
        return Base::Hexadecimal;
    }
    if text[0] == '0' && text[1] == 'b' && begins_with_digit(digits, 2) {
        return Base::Binary;
    }
    Base::Decimal
}

/// How many characters are digits of the base, and a single `'` between two of them.
#[tactic(auto, using(crate::proofs::Steps::digit_steps))]
fn digits_len(text: &[char], base: u32) -> usize
    requires least { 2 ≤ base }
    requires greatest { base ≤ 16 }
    ensures len { result ≡ digits_len base text.now }
    ensures within { result ≤ length text.now }
{
    let mut len = 0;
    let mut after = false;
    for (i, c) in text.iter().enumerate() {
        if c.is_digit(base) {
            len = i + 1;
            after = true;
        } else if after && *c == '\'' {
            after = false;
        } else {
            return len;
        }
    }
    len
}

/// The value of a digit or letter, and 36 of any other character.
fn digit_value(c: char) -> u32
    ensures { result ≡ digit_value c }
{
    c.to_digit(36).unwrap_or(36)
}

/// A number with one more digit, where it is below 2 to the power of 128.
fn with_digit(value: u128, base: u32, digit: u32) -> Option<u128>
    ensures { SomeIff result (value * base + digit < 2 ^ 128) (value * base + digit) }
{
    match value.checked_mul(u128::from(base)) {
        Some(product) => product.checked_add(u128::from(digit)),
        None => None,
    }
}

/// The value of digits, where it is below 2 to the power of 128.
#[tactic(auto, using(crate::proofs::Steps::value_steps))]
fn value_of(digits: &[char], base: u32) -> Option<u128>
    requires least { 2 ≤ base }
    requires greatest { base ≤ 16 }
    ensures { SomeIff result (value_from base 0 digits.now < 2 ^ 128) (value_from base 0 digits.now) }
{
    let mut value = 0;
    for c in digits {
        if *c != '\'' {
            match with_digit(value, base, digit_value(*c)) {
                Some(more) => value = more,
                None => return None,
            }
        }
    }
    Some(value)
}

fn number_of(base: u32, skip: usize, digits: &[char]) -> Lexeme
    requires least { 2 ≤ base }
    requires greatest { base ≤ 16 }
    requires skip { skip ≤ 2 }
    ensures { result ≡ number_of base skip digits.now }
{
    let len = digits_len(digits, base);
    let (front, rest) = digits.split_at(len);
    let Some(value) = value_of(front, base) else {
        return Lexeme::Wide;
    };
    if begins_with_continue(rest) {
        return Lexeme::RunOn(skip + len);
    }
    Lexeme::Number(value, skip + len)
}

#[tactic(auto, unfolding(crate::specs::Front::number_at))]
pub(crate) fn number_at(text: &[char]) -> Lexeme
    ensures { result ≡ number_at text.now }
{
    let base = base_at(text);
    let skip = base.prefix_len();
    number_of(base.radix(), skip, &text[skip..])
}
