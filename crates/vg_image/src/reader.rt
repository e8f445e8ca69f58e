//! The text of an image, read line by line.
ghost use Rattle.std.specs.Prelude.{IfOk, IfErr};
ghost use Rattle.vg_image.specs.Reading.{IsSpelled, Refuses};

use crate::image::Image;
use crate::image_fault::ImageFault;
use crate::line::{ends_with_feed, line_split};
use crate::progress::Progress;
use crate::refusal::Refusal;
use std::alloc::Global;
use vg_isa::Isa;

/// The image that a text spells: all of the text, byte for byte, with the name and the widths of this
/// description. Any other text is refused at its line, so `OutOfMemory` aside each text that spells an
/// image is read.
pub fn read(alloc: Global, isa: &Isa, text: &[u8]) -> Result<Image, ImageFault>
    ensures found { IfOk result (λ image. IsSpelled isa.now text.now image) }
    ensures refused { IfErr result (λ fault. Refuses isa.now text.now fault) }
{
    let mut progress = Progress::new(alloc, isa)?;
    let mut rest = text;
    let mut line = 1;
    while !rest.is_empty() {
        let (front, behind) = line_split(rest);
        match progress.read_line(alloc, isa, front) {
            Ok(()) => {}
            Err(Refusal::Wrong) => return Err(ImageFault::Line { line }),
            Err(Refusal::OutOfMemory) => return Err(ImageFault::OutOfMemory),
        }
        rest = behind;
        line += 1;
    }
    if !progress.is_ended() {
        return Err(ImageFault::Line { line });
    }
    if !ends_with_feed(text) {
        return Err(ImageFault::Line { line });
    }
    Ok(progress.image)
}
