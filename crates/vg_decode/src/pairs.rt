//! Words that match two instructions.
ghost use Rattle.std.specs.Prelude.{◌≡◌, ◌+◌, ◌<◌, ◌≤◌, Option};
ghost use Rattle.vg_decode.specs.Pairs.{shared_word, first_partner, first_pair};

use crate::candidate::Candidate;
use vg_format::Pattern;
use vg_isa::InstrId;

/// Two instructions that share a word, and the least word that they share.
#[derive(Clone, Copy, Debug)]
pub(crate) struct Pair {
    pub a: InstrId,
    pub b: InstrId,
    pub word: u64,
}

/// The least word that fits two patterns; None where none does.
#[inline(always)]
fn shared_word(p: &Pattern, q: &Pattern) -> Option<u64>
    ensures { result ≡ shared_word p.now q.now }
{
    if p.value & q.mask == q.value & p.mask {
        Some(p.value | q.value)
    } else {
        None
    }
}

/// The first candidate of a list that shares a word with one before the list.
fn first_partner(one: &Candidate, later: &[Candidate]) -> Option<Pair>
    ensures { result ≡ first_partner one.now later.now }
{
    for other in later {
        if let Some(word) = shared_word(&one.pattern, &other.pattern) {
            return Some(Pair {
                a: one.instr,
                b: other.instr,
                word,
            });
        }
    }
    None
}

/// The first two candidates that share a word.
pub(crate) fn first_pair(candidates: &[Candidate]) -> Option<Pair>
    ensures { result ≡ first_pair candidates.now }
{
    let mut left = candidates;
    while let [one, later @ ..] = left {
        let pair = first_partner(one, later);
        if pair.is_some() {
            return pair;
        }
        left = later;
    }
    None
}
