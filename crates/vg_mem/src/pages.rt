ghost use Rattle.std.specs.Prelude.{◌≡◌, ◌<◌, ◌^◌, [], IfOk, IfSome, IsOk, IsTrue, OnErr, OnOk, Some, None};
ghost use Rattle.vg_mem.specs.Pages.{AreDistinct, IsIndexed, numbers_of};

use crate::page::Page;
use std::alloc::{AllocError, Global};
use std::collections::BTreeMap;

/// The pages of a memory, in the order in which they were taken.
#[derive(Drop)]
pub struct Pages {
    pub pages: Vec<Page>,
    /// Where in `pages` the page with a number stands.
    places: BTreeMap<u64, usize>,
    /// Where it may stand, by the low bits of the number: each is looked at before it is believed.
    hints: [u32; 1024],
    ghost indexed: { IsIndexed (numbers_of pages.items) places },
    ghost distinct: { AreDistinct (numbers_of pages.items) },
}

/// The place of a page's hint.
#[inline(always)]
fn hint_of(number: u64) -> usize
    ensures { result < 1024 }
{
    (number % 1024) as usize
}

impl Pages {
    ghost use Rattle.std.specs.Prelude.{ℕ, ◌+◌, ◌-◌, ◌*◌, ◌≤◌, length};
    ghost use Rattle.std.specs.FinSet.{contains, insert};
    ghost use Rattle.vg_mem.specs.Bytes.{IsNextSet, byte_in, loaded, stored};
    ghost use Rattle.vg_mem.specs.Memory.{pages_from};
    ghost use Rattle.vg_mem.specs.Pages.{IsNextPage, bytes_of, numbers_of, pages_of, place_of};

    /// No pages. It takes no memory.
    pub fn new(alloc: Global) -> Pages
        ensures { result.pages.items ≡ [] }
    {
        Pages {
            pages: Vec::new(alloc),
            places: BTreeMap::new(alloc),
            hints: [0; 1024],
        }
    }

    /// Where the page with a number stands, as far as its hint tells.
    #[inline(always)]
    fn hinted(&self, number: u64) -> Option<usize>
        ensures value { IfSome result (λ place. place_of (numbers_of self.now.pages.items) number ≡ Some place) }
        ensures within { IfSome result (λ place. place < length self.now.pages.items) }
    {
        let place = self.hints[hint_of(number)] as usize;
        if place < self.pages.len() && self.pages[place].number == number {
            Some(place)
        } else {
            None
        }
    }

    /// Where the page with a number stands, without its hint.
    #[inline(never)]
    fn searched(&self, number: u64) -> Option<usize>
        ensures value { result ≡ place_of (numbers_of self.now.pages.items) number }
        ensures within { IfSome result (λ place. place < length self.now.pages.items) }
    {
        self.places.get(&number).copied()
    }

    /// Where the page with a number stands.
    #[inline(always)]
    pub fn place(&self, number: u64) -> Option<usize>
        ensures value { result ≡ place_of (numbers_of self.now.pages.items) number }
        ensures within { IfSome result (λ place. place < length self.now.pages.items) }
    {
        if let Some(place) = self.hinted(number) {
            return Some(place);
        }
        self.searched(number)
    }

    /// Notes where the page with a number stands.
    #[inline(always)]
    pub fn hint(&mut self, number: u64, place: usize)
        ensures { self.new.pages.items ≡ self.old.pages.items }
    {
        if let Ok(place) = u32::try_from(place) {
            self.hints[hint_of(number)] = place;
        }
    }

    /// Adds the page with a number, of zeros.
    #[inline(never)]
    fn add(&mut self, number: u64) -> Result<usize, AllocError>
        requires number { number < 2 ^ 56 }
        requires absent { place_of (numbers_of self.old.pages.items) number ≡ None }
        ensures place { IfOk result (λ place. place_of (numbers_of self.new.pages.items) number ≡ Some place) }
        ensures bound { IfOk result (λ place. place < length self.new.pages.items) }
        ensures bytes { bytes_of self.new.pages.items ≡ bytes_of self.old.pages.items }
        ensures pages { OnOk result (pages_of self.new.pages.items ≡ insert (pages_of self.old.pages.items) number) }
        ensures err { OnErr result (self.new.pages.items ≡ self.old.pages.items) }
    {
        let place = self.pages.len();
        self.pages.push(Page::blank(number))?;
        match self.places.insert(number, place) {
            Ok(_) => Ok(place),
            Err(_) => {
                self.pages.pop();
                Err(AllocError)
            }
        }
    }

    /// Where the page with a number stands; where there is none it is added, of zeros.
    #[inline(never)]
    pub fn take(&mut self, number: u64) -> Result<usize, AllocError>
        requires number { number < 2 ^ 56 }
        ensures place { IfOk result (λ place. place_of (numbers_of self.new.pages.items) number ≡ Some place) }
        ensures bound { IfOk result (λ place. place < length self.new.pages.items) }
        ensures bytes { bytes_of self.new.pages.items ≡ bytes_of self.old.pages.items }
        ensures pages { OnOk result (pages_of self.new.pages.items ≡ insert (pages_of self.old.pages.items) number) }
        ensures err { OnErr result (self.new.pages.items ≡ self.old.pages.items) }
        ensures there { IsTrue (contains (pages_of self.old.pages.items) number) → IsOk result }
    {
        match self.place(number) {
            Some(place) => Ok(place),
            None => self.add(number),
        }
    }

    /// As `take`, by the hint where it tells, which is set where it didn't.
    #[inline(always)]
    pub fn reach(&mut self, number: u64) -> Result<usize, AllocError>
        requires number { number < 2 ^ 56 }
        ensures place { IfOk result (λ place. place_of (numbers_of self.new.pages.items) number ≡ Some place) }
        ensures bound { IfOk result (λ place. place < length self.new.pages.items) }
        ensures bytes { bytes_of self.new.pages.items ≡ bytes_of self.old.pages.items }
        ensures pages { OnOk result (pages_of self.new.pages.items ≡ insert (pages_of self.old.pages.items) number) }
        ensures err { OnErr result (self.new.pages.items ≡ self.old.pages.items) }
        ensures there { IsTrue (contains (pages_of self.old.pages.items) number) → IsOk result }
    {
        if let Some(place) = self.hinted(number) {
            return Ok(place);
        }
        let place = self.take(number)?;
        self.hint(number, place);
        Ok(place)
    }

    /// Takes the pages with the numbers from `first` to before `end`. Where it finds no memory for one, those before it
    /// are taken.
    pub fn take_all(&mut self, first: u64, end: u64) -> Result<(), AllocError>
        requires order { first ≤ end }
        requires end { end ≤ 2 ^ 56 }
        ensures bytes { bytes_of self.new.pages.items ≡ bytes_of self.old.pages.items }
        ensures pages { OnOk result (pages_of self.new.pages.items
            ≡ pages_from first (end - first) (pages_of self.old.pages.items)) }
        ensures kept { (page : ℕ) → IsTrue (contains (pages_of self.old.pages.items) page)
            → IsTrue (contains (pages_of self.new.pages.items) page) }
    {
        for number in first..end {
            self.take(number)?;
        }
        Ok(())
    }

    /// So many bytes of a page from an offset on, the least significant first.
    #[inline(always)]
    pub fn read(&self, place: usize, offset: usize, bytes: u8) -> u128
        requires place { place < length self.now.pages.items }
        requires within { offset + bytes ≤ 256 }
        requires few { bytes ≤ 16 }
        ensures value { (number space : ℕ) → place_of (numbers_of self.now.pages.items) number ≡ Some place
            → 256 * number + offset + bytes ≤ space
            → result ≡ loaded (byte_in (bytes_of self.now.pages.items)) space (256 * number + offset) bytes }
        ensures fits { result < 2 ^ (8 * bytes) }
    {
        self.pages[place].read(offset, bytes)
    }

    /// Writes so many bytes of a number to a page from an offset on, the least significant first.
    #[inline(always)]
    pub fn write(&mut self, place: usize, offset: usize, bytes: u8, value: u128)
        requires place { place < length self.old.pages.items }
        requires within { offset + bytes ≤ 256 }
        ensures bytes { (number space : ℕ) → place_of (numbers_of self.old.pages.items) number ≡ Some place
            → 256 * number + offset + bytes ≤ space
            → bytes_of self.new.pages.items
            ≡ stored space (256 * number + offset) bytes value (bytes_of self.old.pages.items) }
        ensures numbers { numbers_of self.new.pages.items ≡ numbers_of self.old.pages.items }
    {
        self.pages[place].write(offset, bytes, value)
    }

    /// The byte at an address.
    #[inline(always)]
    pub fn byte(&self, at: u64) -> u8
        ensures { result ≡ byte_in (bytes_of self.now.pages.items) at }
    {
        match self.place(at / 256) {
            Some(place) => self.pages[place].bytes[(at % 256) as usize],
            None => 0,
        }
    }

    /// The page with the least number from one on, and its number.
    fn next_page(&self, from: u64) -> Option<(u64, usize)>
        ensures value { IsNextPage (numbers_of self.now.pages.items) from result }
        ensures within { IfSome result (λ next. next.1 < length self.now.pages.items) }
        ensures number { IfSome result (λ next. next.0 < 2 ^ 56) }
    {
        match self.places.range(from..).next() {
            Some((&number, &place)) => Some((number, place)),
            None => None,
        }
    }

    /// The least address from one on whose byte isn't 0.
    pub fn next_set(&self, from: u64) -> Option<u64>
        ensures { IsNextSet (byte_in (bytes_of self.now.pages.items)) from result }
    {
        let mut number = from / 256;
        while let Some((next, place)) = self.next_page(number) {
            let offset = from.saturating_sub(256 * next) as usize;
            if let Some(at) = self.pages[place].next_set(offset) {
                return Some(256 * next + at as u64);
            }
            number = next + 1;
        }
        None
    }
}
