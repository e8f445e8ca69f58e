ghost use Rattle.std.specs.Prelude.{◌≡◌, ◌&&◌, ◌||◌, nat_eq, nat_lt, ◌∷◌, [], flat_map, unwrap_or};
ghost use Rattle.vg_place.specs.Unplaced.{sooner, earliest, tree_parts, write_parts, next_parts, late_in, first_of};

use crate::stage_table::Stages;
use crate::timing::timed;
use vg_isa::{Expr, Instr, Write};

/// A part that is ready later than the stage that needs it: where it stands in the text, and that stage.
#[derive(Clone, Copy, Debug, PartialEq, Eq)]
pub struct Late {
    pub at: usize,
    pub stage: u8,
}

impl Late {
    /// It is told before another one: it stands earlier in the text, or at the same place and is needed earlier.
    fn is_before(self, other: Late) -> bool
        ensures { result ≡ (nat_lt self.at other.at || (nat_eq self.at other.at && nat_lt self.stage other.stage)) }
    {
        self.at < other.at || (self.at == other.at && self.stage < other.stage)
    }
}

/// A late part of an instruction, which has this number.
#[derive(Clone, Copy, Debug, PartialEq, Eq)]
pub struct Found {
    pub instr: usize,
    pub late: Late,
}

/// Of what was found so far and the late part that is told of the next instruction, the one that is told.
pub fn first_of(best: Option<Found>, instr: usize, late: Option<Late>) -> Option<Found>
    ensures { result ≡ first_of best instr late }
{
    match (best, late) {
        (best, None) => best,
        (Some(b), Some(late)) if b.late.at <= late.at => Some(b),
        (_, Some(late)) => Some(Found { instr, late }),
    }
}

/// Of a late part so far and another one, the one that is told.
fn told(best: Option<Late>, late: Late) -> Option<Late>
    ensures { result ≡ sooner best late }
{
    match best {
        Some(b) if !late.is_before(b) => Some(b),
        _ => Some(late),
    }
}

/// What is told with a part that is ready in one stage and needed in another.
fn seen(best: Option<Late>, at: usize, ready: u8, needed: u8) -> Option<Late>
    ensures { result ≡ earliest (record { place = at; ready = ready; needed = needed } ∷ []) best }
{
    if needed < ready {
        told(best, Late { at, stage: needed })
    } else {
        best
    }
}

/// What is told with a tree and the memory reads in it. `read_at` is where their address stands in the text.
fn tree(
    stages: &Stages,
    read_at: usize,
    e: &Expr,
    at: usize,
    needed: u8,
    best: Option<Late>,
) -> Option<Late>
    ensures { result ≡ earliest (tree_parts stages.now read_at e.now at needed) best }
{
    let timing = timed(stages, e);
    let best = seen(best, at, timing.stage, needed);
    seen(best, read_at, timing.address, stages.memory.read)
}

/// What is told with a write.
fn write(stages: &Stages, read_at: usize, write: &Write, best: Option<Late>) -> Option<Late>
    ensures { result ≡ earliest (write_parts stages.now read_at write.now) best }
{
    let needed = stages.write(write.resource);
    let best = tree(
        stages,
        read_at,
        &write.guard,
        write.guard_spot.unwrap_or(0),
        needed,
        best,
    );
    let best = match &write.at {
        None => best,
        Some(at) => tree(
            stages,
            read_at,
            at,
            write.at_spot.unwrap_or(0),
            needed,
            best,
        ),
    };
    tree(
        stages,
        read_at,
        &write.value,
        write.value_spot,
        needed,
        best,
    )
}

/// What is told with writes.
fn writes(stages: &Stages, read_at: usize, writes: &[Write]) -> Option<Late>
    ensures { result ≡ earliest (flat_map (write_parts stages.now read_at) writes.now) None }
{
    let mut best = None;
    for w in writes {
        best = write(stages, read_at, w, best);
    }
    best
}

/// What is told with the next program counter.
fn next(stages: &Stages, instr: &Instr, best: Option<Late>) -> Option<Late>
    ensures { result ≡ earliest (next_parts stages.now instr.now) best }
{
    let read_at = instr.read_spot.unwrap_or(0);
    match &instr.next {
        None => best,
        Some((guard, value)) => {
            let (guard_at, value_at) = match instr.next_spots {
                None => (0, 0),
                Some((guard_spot, value_spot)) => (guard_spot.unwrap_or(0), value_spot),
            };
            let best = tree(stages, read_at, guard, guard_at, stages.resolve, best);
            tree(stages, read_at, value, value_at, stages.resolve, best)
        }
    }
}

/// The late part that is told of an instruction.
pub fn late_in(stages: &Stages, instr: &Instr) -> Option<Late>
    ensures { result ≡ late_in stages.now instr.now }
{
    let best = writes(
        stages,
        instr.read_spot.unwrap_or(0),
        instr.writes.as_slice(),
    );
    next(stages, instr, best)
}
