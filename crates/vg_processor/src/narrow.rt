//! Numbers of a description as a processor has them.

ghost use Rattle.std.specs.Prelude.{◌≡◌, true};
ghost use Rattle.vg_isa.specs.Typing.{is_width};
ghost use Rattle.vg_processor.specs.Held.{is_byte, is_long};

use vg_bits::Width;

/// A number as a width.
pub(crate) fn width_of(number: u128) -> Width
    requires { is_width number ≡ true }
    ensures { result ≡ number }
{
    Width::of(number as u8)
}

/// A number of a bit or of a register.
pub(crate) fn byte_of(number: u128) -> u8
    requires { is_byte number ≡ true }
    ensures { result ≡ number }
{
    number as u8
}

/// An address.
pub(crate) fn long_of(number: u128) -> u64
    requires { is_long number ≡ true }
    ensures { result ≡ number }
{
    number as u64
}
