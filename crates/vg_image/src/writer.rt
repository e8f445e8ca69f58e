//! The text of an image, written line by line.
ghost use Rattle.std.specs.Prelude.{◌≡◌, ◌++◌, ◌∷◌, ◌<◌, ◌≤◌, ◌^◌, [], All, IfOk, OnOk, codes, flat_map};
ghost use Rattle.vg_text.specs.Number.{hexadecimal};
ghost use Rattle.vg_image.specs.Lines.{ended_line};
ghost use Rattle.vg_image.specs.Spelling.{IsImage, IsSymbol, address_after, bytes_text, code_text, spelling, symbol_text};
ghost use Rattle.vg_image.specs.Writer.{data_written, head_written};

use crate::image::{Image, Symbol};
use crate::widths::{address_digits, word_bytes};
use std::alloc::{AllocError, Global};
use vg_isa::Isa;
use vg_text::number::push_hexadecimal;
use vg_text::piece::push_bytes;

/// The one spelling of an image.
pub fn write(alloc: Global, isa: &Isa, image: &Image) -> Result<Vec<u8>, AllocError>
    requires { IsImage isa.now image.now }
    ensures { IfOk result (λ text. text.items ≡ spelling isa.now image.now) }
{
    let mut out = Vec::new(alloc);
    push_head(&mut out, isa, image)?;
    push_code(&mut out, isa, image.code.as_slice())?;
    push_address(&mut out, isa, b"data ", image.data_base)?;
    push_data(&mut out, image.bytes.as_slice())?;
    push_symbols(&mut out, isa, image.symbols.as_slice())?;
    push_bytes(&mut out, b"end\n")?;
    Ok(out)
}

/// Appends the lines of the name and of the addresses of code.
fn push_head(out: &mut Vec<u8>, isa: &Isa, image: &Image) -> Result<(), AllocError>
    requires { IsImage isa.now image.now }
    ensures { OnOk result (out.new.items ≡ out.old.items ++ head_written isa.now image.now) }
{
    push_bytes(out, b"image ")?;
    push_bytes(out, isa.parts().name.as_slice())?;
    push_bytes(out, b"\n")?;
    push_address(out, isa, b"base ", image.base)?;
    push_address(out, isa, b"entry ", image.entry)?;
    push_address(out, isa, b"stop ", image.stop)?;
    push_address(out, isa, b"full ", image.full)?;
    Ok(())
}

/// Appends the line of a word and an address.
fn push_address(out: &mut Vec<u8>, isa: &Isa, word: &[u8], at: u64) -> Result<(), AllocError>
    requires { at < 2 ^ isa.now.pc.width }
    ensures { OnOk result (out.new.items ≡ out.old.items ++ ended_line (address_after isa.now word.now at)) }
{
    push_bytes(out, word)?;
    push_bytes(out, b"0x")?;
    push_hexadecimal(out, address_digits(isa), u128::from(at))?;
    push_bytes(out, b"\n")
}

/// Appends the lines of code words.
fn push_code(out: &mut Vec<u8>, isa: &Isa, words: &[u64]) -> Result<(), AllocError>
    requires { All (λ word. word < 2 ^ isa.now.word) words.now }
    ensures { OnOk result (out.new.items
        ≡ out.old.items ++ flat_map (λ word. ended_line (code_text isa.now word)) words.now) }
{
    for word in words {
        push_word(out, isa, *word)?;
    }
    Ok(())
}

/// Appends the line of a code word.
fn push_word(out: &mut Vec<u8>, isa: &Isa, word: u64) -> Result<(), AllocError>
    requires { word < 2 ^ isa.now.word }
    ensures { OnOk result (out.new.items ≡ out.old.items ++ ended_line (code_text isa.now word)) }
{
    push_bytes(out, b"code ")?;
    push_hexadecimal(out, 2 * word_bytes(isa), u128::from(word))?;
    push_bytes(out, b"\n")
}

/// Appends the lines of data.
fn push_data(out: &mut Vec<u8>, bytes: &[u8]) -> Result<(), AllocError>
    ensures { OnOk result (out.new.items ≡ out.old.items ++ data_written bytes.now) }
{
    let mut rest = bytes;
    while !rest.is_empty() {
        let (row, behind) = rest.split_at(rest.len().min(16));
        push_row(out, row)?;
        rest = behind;
    }
    Ok(())
}

/// Appends a line of data.
fn push_row(out: &mut Vec<u8>, row: &[u8]) -> Result<(), AllocError>
    ensures { OnOk result (out.new.items ≡ out.old.items ++ ended_line (bytes_text row.now)) }
{
    push_bytes(out, b"bytes ")?;
    push_digits(out, row)?;
    push_bytes(out, b"\n")
}

/// Appends bytes with two digits each.
fn push_digits(out: &mut Vec<u8>, bytes: &[u8]) -> Result<(), AllocError>
    ensures { OnOk result (out.new.items ≡ out.old.items ++ flat_map (hexadecimal 2) bytes.now) }
{
    for byte in bytes {
        push_hexadecimal(out, 2, u128::from(*byte))?;
    }
    Ok(())
}

/// Appends the lines of symbols.
fn push_symbols(out: &mut Vec<u8>, isa: &Isa, symbols: &[Symbol]) -> Result<(), AllocError>
    requires { All (IsSymbol isa.now) symbols.now }
    ensures { OnOk result (out.new.items
        ≡ out.old.items ++ flat_map (λ symbol. ended_line (symbol_text isa.now symbol)) symbols.now) }
{
    for symbol in symbols {
        push_symbol(out, isa, symbol)?;
    }
    Ok(())
}

/// Appends the line of a symbol.
fn push_symbol(out: &mut Vec<u8>, isa: &Isa, symbol: &Symbol) -> Result<(), AllocError>
    requires { symbol.now.at < 2 ^ isa.now.pc.width }
    ensures { OnOk result (out.new.items ≡ out.old.items ++ ended_line (symbol_text isa.now symbol.now)) }
{
    push_bytes(out, b"symbol ")?;
    push_bytes(out, symbol.name.as_slice())?;
    push_address(out, isa, b" ", symbol.at)
}
