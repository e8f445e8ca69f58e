ghost use Rattle.std.specs.Prelude.{◌≡◌, ◌≤◌, ◌*◌, ◌/◌, ◌^◌, ◌+◌, ◌<◌, IsTrue, IfOk, length, nat_le};
ghost use Rattle.vg_isa.specs.Accepted.{is_isa};
ghost use Rattle.vg_isa.specs.Declaration;
ghost use Rattle.vg_image.specs.Reader;

use crate::image::Image;
use crate::line::{address_of, number_of, push_bytes, symbol_of};
use crate::refusal::Refusal;
use crate::stage::Stage;
use crate::widths::{address_digits, space, word_bytes};
use sqlite_items::Items;
use std::alloc::{AllocError, Global};
use vg_isa::{Isa, Text};
use vg_text::piece::{line_at, rest_after};

/// What is read of an image.
#[derive(Drop)]
pub(crate) struct Progress {
    pub(crate) stage: Stage,
    /// What isn't read yet of the description's name. Nothing keeps a line feed out of it.
    pub(crate) left: Text,
    pub(crate) image: Image,
}

impl Progress {
    /// What is read before the first line.
    pub(crate) fn new(alloc: Global, isa: &Isa) -> Result<Progress, AllocError>
        ensures nothing { IfOk result (λ progress. progress ≡ Reader.nothing_read isa.now) }
        ensures accepted { IsTrue (is_isa isa.now) }
    {
        let left = Items::from_slice(alloc, isa.parts().name.as_slice())?;
        let image = Image {
            code: Items::new(alloc),
            base: 0,
            entry: 0,
            stop: 0,
            full: 0,
            data_base: 0,
            bytes: Items::new(alloc),
            symbols: Items::new(alloc),
        };
        Ok(Progress {
            stage: Stage::Image,
            left,
            image,
        })
    }

    /// No line may follow.
    pub(crate) fn is_ended(&self) -> bool
        ensures { result ≡ Reader.is_ended self.now.stage }
    {
        matches!(self.stage, Stage::End)
    }

    /// Reads one line more.
    #[tactic(auto, unfolding(crate::specs::Reader::line_read))]
    pub(crate) fn read_line(&mut self, alloc: Global, isa: &Isa, line: &[u8]) -> Result<(), Refusal>
        ensures { Reader.Gives (λ _. self.new) result (Reader.line_read isa.now self.old line.now) }
    {
        match self.stage {
            Stage::Image => self.first_line(alloc, line),
            Stage::Name => self.name_line(alloc, line),
            Stage::Base => self.base_line(isa, line),
            Stage::Entry => self.entry_line(isa, line),
            Stage::Stop => self.stop_line(isa, line),
            Stage::Full => self.full_line(isa, line),
            Stage::Code => self.code_line(isa, line),
            Stage::Bytes => self.bytes_line(alloc, isa, line),
            Stage::Symbols => self.symbol_line(alloc, isa, line),
            Stage::End => Err(Refusal::Wrong),
        }
    }

    #[tactic(auto, unfolding(crate::specs::Reader::first_line))]
    fn first_line(&mut self, alloc: Global, line: &[u8]) -> Result<(), Refusal>
        ensures { Reader.Gives (λ _. self.new) result (Reader.first_line self.old line.now) }
    {
        let behind = rest_after(b"image ", line).ok_or(Refusal::Wrong)?;
        self.name_line(alloc, behind)
    }

    /// A line of the description's name, of which there are more where the name has line feeds.
    #[tactic(auto, unfolding(crate::specs::Reader::name_line))]
    fn name_line(&mut self, alloc: Global, line: &[u8]) -> Result<(), Refusal>
        ensures { Reader.Gives (λ _. self.new) result (Reader.name_line self.old line.now) }
    {
        match line_at(self.left.as_slice()) {
            None => {
                all_read(self.left.as_slice(), line)?;
                self.stage = Stage::Base;
                Ok(())
            }
            Some((piece, more)) => {
                all_read(piece, line)?;
                let more = Items::from_slice(alloc, more)?;
                self.left = more;
                self.stage = Stage::Name;
                Ok(())
            }
        }
    }

    #[tactic(auto, unfolding(crate::specs::Reader::base_line))]
    fn base_line(&mut self, isa: &Isa, line: &[u8]) -> Result<(), Refusal>
        ensures { Reader.Gives (λ _. self.new) result (Reader.base_line isa.now self.old line.now) }
    {
        let base = address_of(b"base ", address_digits(isa), line).ok_or(Refusal::Wrong)?;
        if base % u64::from(word_bytes(isa)) != 0 {
            return Err(Refusal::Wrong);
        }
        self.image.base = base;
        self.stage = Stage::Entry;
        Ok(())
    }

    #[tactic(auto, unfolding(crate::specs::Reader::entry_line))]
    fn entry_line(&mut self, isa: &Isa, line: &[u8]) -> Result<(), Refusal>
        ensures { Reader.Gives (λ _. self.new) result (Reader.entry_line isa.now self.old line.now) }
    {
        let entry = address_of(b"entry ", address_digits(isa), line).ok_or(Refusal::Wrong)?;
        self.image.entry = entry;
        self.stage = Stage::Stop;
        Ok(())
    }

    #[tactic(auto, unfolding(crate::specs::Reader::stop_line))]
    fn stop_line(&mut self, isa: &Isa, line: &[u8]) -> Result<(), Refusal>
        ensures { Reader.Gives (λ _. self.new) result (Reader.stop_line isa.now self.old line.now) }
    {
        let stop = address_of(b"stop ", address_digits(isa), line).ok_or(Refusal::Wrong)?;
        self.image.stop = stop;
        self.stage = Stage::Full;
        Ok(())
    }

    #[tactic(auto, unfolding(crate::specs::Reader::full_line))]
    fn full_line(&mut self, isa: &Isa, line: &[u8]) -> Result<(), Refusal>
        ensures { Reader.Gives (λ _. self.new) result (Reader.full_line isa.now self.old line.now) }
    {
        let full = address_of(b"full ", address_digits(isa), line).ok_or(Refusal::Wrong)?;
        self.image.full = full;
        self.stage = Stage::Code;
        Ok(())
    }

    #[tactic(auto, unfolding(crate::specs::Reader::code_line))]
    fn code_line(&mut self, isa: &Isa, line: &[u8]) -> Result<(), Refusal>
        ensures { Reader.Gives (λ _. self.new) result (Reader.code_line isa.now self.old line.now) }
    {
        match rest_after(b"code ", line) {
            Some(behind) => self.word_line(isa, behind),
            None => self.data_base_line(isa, line),
        }
    }

    /// A code word behind `code `.
    #[tactic(auto, unfolding(crate::specs::Reader::word_line))]
    fn word_line(&mut self, isa: &Isa, behind: &[u8]) -> Result<(), Refusal>
        ensures { Reader.Gives (λ _. self.new) result (Reader.word_line isa.now self.old behind.now) }
    {
        if !has_code_room(isa, &self.image) {
            return Err(Refusal::Wrong);
        }
        let word = number_of(2 * word_bytes(isa), behind).ok_or(Refusal::Wrong)?;
        self.image.code.push(word)?;
        Ok(())
    }

    #[tactic(auto, unfolding(crate::specs::Reader::data_base_line))]
    fn data_base_line(&mut self, isa: &Isa, line: &[u8]) -> Result<(), Refusal>
        ensures { Reader.Gives (λ _. self.new) result (Reader.data_base_line isa.now self.old line.now) }
    {
        let at = address_of(b"data ", address_digits(isa), line).ok_or(Refusal::Wrong)?;
        self.image.data_base = at;
        self.stage = Stage::Bytes;
        Ok(())
    }

    #[tactic(auto, unfolding(crate::specs::Reader::bytes_line))]
    fn bytes_line(&mut self, alloc: Global, isa: &Isa, line: &[u8]) -> Result<(), Refusal>
        ensures { Reader.Gives (λ _. self.new) result (Reader.bytes_line isa.now self.old line.now) }
    {
        match rest_after(b"bytes ", line) {
            Some(behind) => self.data_line(isa, behind),
            None => self.symbol_line(alloc, isa, line),
        }
    }

    /// Bytes behind `bytes `. Others may follow where there are 16.
    #[tactic(auto, unfolding(crate::specs::Reader::data_line))]
    fn data_line(&mut self, isa: &Isa, behind: &[u8]) -> Result<(), Refusal>
        ensures { Reader.Gives (λ _. self.new) result (Reader.data_line isa.now self.old behind.now) }
    {
        let count = behind.len() / 2;
        if !has_data_room(isa, &self.image, count) {
            return Err(Refusal::Wrong);
        }
        let rest = push_bytes(&mut self.image.bytes, count, behind)?;
        if !rest.is_empty() {
            return Err(Refusal::Wrong);
        }
        self.stage = if count == 16 {
            Stage::Bytes
        } else {
            Stage::Symbols
        };
        Ok(())
    }

    #[tactic(auto, unfolding(crate::specs::Reader::symbol_line))]
    fn symbol_line(&mut self, alloc: Global, isa: &Isa, line: &[u8]) -> Result<(), Refusal>
        ensures { Reader.Gives (λ _. self.new) result (Reader.symbol_line isa.now self.old line.now) }
    {
        let Some(behind) = rest_after(b"symbol ", line) else {
            return self.end_line(line);
        };
        let symbol = symbol_of(alloc, address_digits(isa), behind)?;
        self.image.symbols.push(symbol)?;
        self.stage = Stage::Symbols;
        Ok(())
    }

    #[tactic(auto, unfolding(crate::specs::Reader::end_line))]
    fn end_line(&mut self, line: &[u8]) -> Result<(), Refusal>
        ensures { Reader.Gives (λ _. self.new) result (Reader.end_line self.old line.now) }
    {
        all_read(b"end", line)?;
        self.stage = Stage::End;
        Ok(())
    }
}

/// The line is this text.
fn all_read(text: &[u8], line: &[u8]) -> Result<(), Refusal>
    ensures { Reader.Gives (λ _. text.now) result (Reader.all_read text.now line.now) }
{
    match rest_after(text, line) {
        Some([]) => Ok(()),
        _ => Err(Refusal::Wrong),
    }
}

/// One code word more has room.
fn has_code_room(isa: &Isa, image: &Image) -> bool
    ensures { result ≡ Reader.has_code_room isa.now image.now }
{
    fits_in(space(isa), image.base, word_bytes(isa), image.code.len())
}

/// One word more than so many ends in the space.
fn fits_in(space: u128, base: u64, word_bytes: u8, words: usize) -> bool
    requires { word_bytes ≤ 8 }
    ensures { result ≡ nat_le (base + word_bytes * (words + 1)) space }
{
    u128::from(base) + u128::from(word_bytes) * (words as u128 + 1) <= space
}

/// A line may have so many bytes, and they have room.
fn has_data_room(isa: &Isa, image: &Image, count: usize) -> bool
    ensures { result ≡ Reader.has_data_room isa.now image.now count }
{
    let bytes = image.bytes.len() as u128 + count as u128;
    0 < count && count <= 16 && u128::from(image.data_base) + bytes <= space(isa)
}
