ghost use Rattle.std.specs.Prelude.{◌≡◌};
ghost use Rattle.vg_graph.specs.Graph.{root_of};
ghost use Rattle.vg_graph.specs.Replaced.{renamed, renamed_roots, renamed_write};

use crate::root::Root;
use sqlite_items::Items;

/// The nodes of a write.
#[derive(Clone, Copy)]
pub struct WriteRoots {
    pub guard: u32,
    pub at: Option<u32>,
    pub value: u32,
}

/// The number that stands in place of a number.
fn rename(old: u32, new: u32, n: u32) -> u32
    ensures { result ≡ renamed old new n }
{
    if n == old { new } else { n }
}

impl WriteRoots {
    /// The same with one node in place of another.
    fn renamed(&self, old: u32, new: u32) -> WriteRoots
        ensures { result ≡ renamed_write old new self.now }
    {
        WriteRoots {
            guard: rename(old, new, self.guard),
            at: self.at.map(|at| rename(old, new, at)),
            value: rename(old, new, self.value),
        }
    }
}

/// The nodes of the write of the program counter.
#[derive(Clone, Copy)]
pub struct NextRoots {
    pub guard: u32,
    pub value: u32,
}

/// The nodes that stand for the parts of an instruction.
#[derive(Drop)]
pub struct Roots {
    pub writes: Items<WriteRoots>,
    pub next: Option<NextRoots>,
}

impl Roots {
    /// The node that stands for a part; None exactly where there is no such part.
    pub fn node(&self, r: Root) -> Option<u32>
        ensures { result ≡ root_of self.now r }
    {
        match r {
            Root::Guard(k) => Some(self.writes.get(k as usize)?.guard),
            Root::At(k) => self.writes.get(k as usize)?.at,
            Root::Value(k) => Some(self.writes.get(k as usize)?.value),
            Root::NextGuard => Some(self.next?.guard),
            Root::NextValue => Some(self.next?.value),
        }
    }

    /// Every root that is the node `old` becomes the node `new`.
    pub fn replace(&mut self, old: u32, new: u32)
        ensures { self.new ≡ renamed_roots old new self.old }
    {
        for k in 0..self.writes.len() {
            let Some(write) = self.writes.get(k) else {
                unreachable!();
            };
            let changed = write.renamed(old, new);
            self.writes.set(k, changed);
        }
        self.next = self.next.map(|next| NextRoots {
            guard: rename(old, new, next.guard),
            value: rename(old, new, next.value),
        });
    }
}
