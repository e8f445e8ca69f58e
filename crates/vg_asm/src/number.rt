//! The numbers of a line, appended to a text.
ghost use Rattle.std.specs.Prelude.{◌≡◌, ◌++◌, ◌-◌, ◌*◌, ◌^◌, ◌<◌, ◌≤◌, OnOk, decimal};
ghost use Rattle.vg_text.specs.Number.{hexadecimal};
ghost use Rattle.vg_grammar.specs.Line.{hex_text, is_negative, signed_text, target_text, trimmed};

use itoa::Buffer;
use std::alloc::AllocError;
use vg_bits::Bits;
use vg_text::number::push_hexadecimal;
use vg_text::piece::push_bytes;

/// Appends a number in decimal.
pub(crate) fn push_decimal(out: &mut Vec<u8>, n: u128) -> Result<(), AllocError>
    ensures { OnOk result (out.new.items ≡ out.old.items ++ decimal n) }
{
    let mut digits = Buffer::new();
    push_bytes(out, digits.format(n).as_bytes())
}

/// How many hexadecimal digits a number has without zeros in front of another digit.
fn hex_digits(n: u64) -> u8
    ensures most { result ≤ 16 }
    ensures room { n < 16 ^ result }
    ensures none_in_front { hexadecimal result n ≡ trimmed (hexadecimal 16 n) }
{
    let mut digits = 1;
    let mut rest = n / 16;
    while rest > 0 {
        rest /= 16;
        digits += 1;
    }
    digits
}

/// Appends `0x` and a number in hexadecimal.
pub(crate) fn push_hex(out: &mut Vec<u8>, n: u64) -> Result<(), AllocError>
    ensures { OnOk result (out.new.items ≡ out.old.items ++ hex_text n) }
{
    push_bytes(out, b"0x")?;
    push_hexadecimal(out, hex_digits(n), u128::from(n))
}

/// Whether a value is negative as two's complement.
fn is_negative(value: Bits) -> bool
    requires { value.width ≤ 64 }
    ensures { result ≡ is_negative value.width value.number }
{
    value.value() >= 1 << (value.width().bits() - 1)
}

/// How far below 0 a negative value is.
fn size_of(value: Bits) -> u128
    requires { value.width ≤ 64 }
    ensures { result ≡ 2 ^ value.width - value.number }
{
    (1 << value.width().bits()) - value.value()
}

/// Appends a value as two's complement.
pub(crate) fn push_signed(out: &mut Vec<u8>, value: Bits) -> Result<(), AllocError>
    requires { value.width ≤ 64 }
    ensures { OnOk result (out.new.items ≡ out.old.items ++ signed_text value.width value.number) }
{
    if is_negative(value) {
        push_bytes(out, b"-")?;
        push_decimal(out, size_of(value))
    } else {
        push_decimal(out, value.value())
    }
}

/// Appends a value as two's complement, times 2 to a power, as a distance.
pub(crate) fn push_target(out: &mut Vec<u8>, value: Bits, power: u8) -> Result<(), AllocError>
    requires width { value.width ≤ 64 }
    requires power { power ≤ 63 }
    ensures { OnOk result (out.new.items ≡ out.old.items ++ target_text value.width power value.number) }
{
    if is_negative(value) {
        push_bytes(out, b".-")?;
        push_decimal(out, size_of(value) * (1 << power))
    } else {
        push_bytes(out, b".+")?;
        push_decimal(out, value.value() * (1 << power))
    }
}
