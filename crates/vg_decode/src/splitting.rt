//! Which bit a node of the tree tests. What is found doesn't depend on it; how large and how deep the tree is, does.
use crate::candidate::Candidate;
use crate::growing::{may_have, may_lack};

/// How many candidates a test of a bit leaves: for words without it, and for words with it.
#[derive(Clone, Copy)]
struct Split {
    mask: u64,
    lacking: usize,
    having: usize,
}

/// What a test of a bit leaves of candidates.
fn split_by(candidates: &[Candidate], mask: u64) -> Split {
    Split {
        mask,
        lacking: candidates.iter().filter(|c| may_lack(c, mask)).count(),
        having: candidates.iter().filter(|c| may_have(c, mask)).count(),
    }
}

impl Split {
    /// How many are left, on an average over both sides weighted by how many come there.
    fn cost(self) -> usize {
        let lacking = self.lacking.saturating_mul(self.lacking);
        lacking.saturating_add(self.having.saturating_mul(self.having))
    }

    /// Whether the test is worth a node: each candidate stands on one side alone, or few stand on both and each side
    /// has a quarter less. So a tree of n candidates has at most about n to the power of 1.5 leaves.
    fn narrows(self, count: usize) -> bool {
        let quarter = count / 4;
        let both = self.lacking.saturating_add(self.having);
        let larger = self.lacking.max(self.having);
        larger < count && (both <= count || both - count <= quarter && larger <= count - quarter)
    }
}

/// The cheaper of two tests.
fn cheaper(best: Option<Split>, split: Split) -> Split {
    match best {
        Some(best) if best.cost() <= split.cost() => best,
        _ => split,
    }
}

/// The bit whose test leaves the fewest candidates, as a mask; None where no test is worth a node.
pub(crate) fn best_bit(candidates: &[Candidate]) -> Option<u64> {
    let mut best = None;
    for bit in 0..64u32 {
        let split = split_by(candidates, 1 << bit);
        if split.narrows(candidates.len()) {
            best = Some(cheaper(best, split));
        }
    }
    best.map(|split| split.mask)
}
