//! The longest text that is read as an image, 8 MiB.

use crate::tests::{description, is_written_back};
use std::alloc::{AllocError, Global};
use std::test::Fail;

/// A line so many times behind a text.
fn push_lines(text: &mut Vec<u8>, line: &[u8], count: usize) -> Result<(), AllocError> {
    for _ in 0..count {
        text.extend_from_slice(line)?;
    }
    Ok(())
}

/// An image of so many code words and lines of 16 bytes.
fn long_text(alloc: Global, words: usize, rows: usize) -> Result<Vec<u8>, AllocError> {
    let mut text = Vec::new(alloc);
    text.extend_from_slice(b"image T\nbase 0x00001000\nentry 0x00001000\n")?;
    text.extend_from_slice(b"stop 0x00001004\nfull 0x00001004\n")?;
    push_lines(&mut text, b"code 00500093\n", words)?;
    text.extend_from_slice(b"data 0x00800000\n")?;
    push_lines(&mut text, b"bytes 000102030405060708090a0b0c0d0e0f\n", rows)?;
    text.extend_from_slice(b"end\n")?;
    Ok(text)
}

#[test]
fn the_longest_image(rt: HostRuntime) -> Result<(), Fail> {
    let isa = description(rt.alloc(), 32, 32)?;
    let text = long_text(rt.alloc(), 299_590, 107_545)?;
    assert_eq!(rt; text.len(), 8 << 20);
    assert!(rt; is_written_back(rt.alloc(), &isa, text.as_slice())?);
    Ok(())
}
