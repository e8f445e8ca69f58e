//! The tree of a list of candidates.
ghost use Rattle.std.specs.Prelude.{◌≡◌, IfOk, ℕ, filter};
ghost use Rattle.vg_decode.specs.Decoding.{first_fit, found_in};
ghost use Rattle.vg_decode.specs.Narrowing.{may_lack, may_have};

use crate::candidate::Candidate;
use crate::splitting::best_bit;
use crate::tree::Tree;
use sqlite_items::{Boxed, Items};
use std::alloc::{AllocError, Global};

/// Whether a word without a bit of the mask may fit a candidate's pattern.
#[inline(always)]
pub(crate) fn may_lack(candidate: &Candidate, mask: u64) -> bool
    ensures { result ≡ may_lack mask candidate.now }
{
    candidate.pattern.value & mask == 0
}

/// Whether a word with a bit of the mask may fit a candidate's pattern.
#[inline(always)]
pub(crate) fn may_have(candidate: &Candidate, mask: u64) -> bool
    ensures { result ≡ may_have mask candidate.now }
{
    candidate.pattern.value & mask != 0 || candidate.pattern.mask & mask != mask
}

/// The candidates that a word without a bit of the mask may fit.
fn lacking(alloc: Global, candidates: &[Candidate], mask: u64) -> Result<Vec<Candidate>, AllocError>
    ensures { IfOk result (λ v. v.items ≡ filter (may_lack mask) candidates.now) }
{
    candidates
        .iter()
        .copied()
        .filter(|candidate| may_lack(candidate, mask))
        .collect(alloc)
}

/// The candidates that a word with a bit of the mask may fit.
fn having(alloc: Global, candidates: &[Candidate], mask: u64) -> Result<Vec<Candidate>, AllocError>
    ensures { IfOk result (λ v. v.items ≡ filter (may_have mask) candidates.now) }
{
    candidates
        .iter()
        .copied()
        .filter(|candidate| may_have(candidate, mask))
        .collect(alloc)
}

/// The tree of candidates, of at most so many levels of tests.
///
/// It finds what a search along the list finds, whichever bits are tested.
pub(crate) fn grow(alloc: Global, candidates: &[Candidate], levels: u8) -> Result<Tree, AllocError>
    ensures { IfOk result (λ tree. (word : ℕ) → found_in tree word ≡ first_fit candidates.now word) }
{
    if levels == 0 {
        return Ok(Tree::Leaf(Items::from_slice(alloc, candidates)?));
    }
    match best_bit(candidates) {
        None => Ok(Tree::Leaf(Items::from_slice(alloc, candidates)?)),
        Some(mask) => {
            let without = lacking(alloc, candidates, mask)?;
            let with = having(alloc, candidates, mask)?;
            let none = Boxed::new(alloc, grow(alloc, without.as_slice(), levels - 1)?)?;
            let some = Boxed::new(alloc, grow(alloc, with.as_slice(), levels - 1)?)?;
            Ok(Tree::Test(mask, none, some))
        }
    }
}
