ghost use Rattle.std.specs.Prelude.{◌≡◌, max};
ghost use Rattle.vg_place.specs.Stage.{timed, read_stage};

use crate::stage_table::Stages;
use vg_isa::{Expr, ResourceId};

/// When a tree has its value, and when the last address of a memory read in it has; 0 where it reads no memory.
#[derive(Clone, Copy, Debug, PartialEq, Eq)]
pub struct Timing {
    pub stage: u8,
    pub address: u8,
}

/// The later of two stages.
#[inline(always)]
pub fn later(a: u8, b: u8) -> u8
    ensures { result ≡ max a b }
{
    if a < b { b } else { a }
}

impl Timing {
    /// There from this stage on, with no memory read.
    fn since(stage: u8) -> Timing
        ensures { result ≡ record { stage = stage; address = 0 } }
    {
        Timing { stage, address: 0 }
    }

    /// Both are there.
    fn and(self, other: Timing) -> Timing
        ensures { result ≡ record { stage = max self.stage other.stage; address = max self.address other.address } }
    {
        Timing {
            stage: later(self.stage, other.stage),
            address: later(self.address, other.address),
        }
    }

    /// A stage has come too.
    fn at(self, stage: u8) -> Timing
        ensures { result ≡ record { stage = max self.stage stage; address = self.address } }
    {
        Timing {
            stage: later(self.stage, stage),
            address: self.address,
        }
    }

    /// A memory read at this address.
    fn read(self, stage: u8) -> Timing
        ensures { result ≡ record { stage = max self.stage stage; address = max self.address self.stage } }
    {
        Timing {
            stage: later(self.stage, stage),
            address: later(self.address, self.stage),
        }
    }
}

/// When a tree has its value.
pub fn timed(stages: &Stages, e: &Expr) -> Timing
    ensures { result ≡ timed stages.now e.now }
{
    match e {
        Expr::Const(_) | Expr::Field(_) | Expr::Pc => Timing::since(0),
        Expr::Reg(r, None) => Timing::since(stages.read(ResourceId::Reg(*r))),
        Expr::Reg(r, Some(i)) => timed(stages, i.get()).at(stages.read(ResourceId::Reg(*r))),
        Expr::Mem(at, _) => timed(stages, at.get()).read(stages.memory.read),
        Expr::Unary(_, a) => timed(stages, a.get()).at(stages.compute),
        Expr::Binary(_, a, b) => timed(stages, a.get())
            .and(timed(stages, b.get()))
            .at(stages.compute),
        Expr::Cast(_, _, a) | Expr::Slice(a, _, _) => timed(stages, a.get()),
        Expr::Join(a, b) => timed(stages, a.get()).and(timed(stages, b.get())),
        Expr::If(c, a, b) => {
            let branches = timed(stages, a.get()).and(timed(stages, b.get()));
            timed(stages, c.get()).and(branches).at(stages.compute)
        }
    }
}
