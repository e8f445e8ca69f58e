//! The widths of a description.
ghost use Rattle.std.specs.Prelude.{◌≡◌, ◌*◌, ◌≤◌, ◌^◌};
ghost use Rattle.vg_isa.specs.Declaration;
ghost use Rattle.vg_image.specs.Reader;

use vg_isa::Isa;

/// The digits of an address.
pub(crate) fn address_digits(isa: &Isa) -> u8
    ensures value { result ≡ Reader.address_digits isa.now }
    ensures most { result ≤ 16 }
    ensures space { 16 ^ result ≡ 2 ^ isa.now.pc.width }
{
    isa.pc().width.bits() / 4
}

/// The bytes of a code word.
pub(crate) fn word_bytes(isa: &Isa) -> u8
    ensures value { result ≡ Declaration.word_bytes isa.now }
    ensures least { 2 ≤ result }
    ensures most { result ≤ 8 }
    ensures space { 16 ^ (2 * result) ≡ 2 ^ isa.now.word }
{
    isa.word().bits() / 8
}

/// How many addresses there are.
pub(crate) fn space(isa: &Isa) -> u128
    ensures { result ≡ 2 ^ isa.now.pc.width }
{
    1 << isa.pc().width.bits()
}
