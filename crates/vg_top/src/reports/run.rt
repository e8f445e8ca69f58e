//! The report of a run: how it stands, and then the state.
ghost use Rattle.std.specs.Prelude.{◌≡◌, ◌∷◌, ◌++◌, [], OnOk, codes, decimal};
ghost use Rattle.vg_isa.specs.Value.{HasDeclaredWidths};
ghost use Rattle.vg_top.specs.Reports.Run as Report;
ghost use Rattle.vg_top.specs.Reports.State.{state_lines};

use crate::reports::state::{Machine, push_state};
use crate::status::Status;
use std::alloc::AllocError;
use vg_image::{Ending, Image};
use vg_isa::Isa;
use vg_text::number::push_decimal;
use vg_text::piece::push_bytes;

/// Appends the report of a run of `image` that did `done` instructions and ended so, in this machine's state; None
/// where it is still running.
pub(crate) fn push_run_report<M: Machine>(
    out: &mut Vec<u8>,
    isa: &Isa,
    image: &Image,
    ending: Option<Ending>,
    done: u64,
    machine: &M,
) -> Result<(), AllocError>
    requires widths { HasDeclaredWidths isa.now (M.reads machine.now) }
    requires registers { M.registers machine.now ≡ isa.now.regs }
    ensures ok { OnOk result (out.new.items ≡ out.old.items ++ (Report.run_word ending ++ codes " after " ++ decimal done ++ 10 ∷ state_lines isa.now image.now (M.reads machine.now))) }
{
    push_run_line(out, ending, done)?;
    push_state(out, isa, image, machine)
}

/// The status of a run that ended so; None where it is still running.
pub(crate) fn run_status(ending: Option<Ending>) -> Status
    ensures { result ≡ Report.run_status ending }
{
    match ending {
        None => Status::Running,
        Some(Ending::End) => Status::Done,
        Some(Ending::StackEnd) => Status::StackFull,
        Some(Ending::OutOfCode) => Status::OutOfCode,
        Some(Ending::Illegal) => Status::Illegal,
    }
}

/// Appends how a run stands.
fn push_run_line(out: &mut Vec<u8>, ending: Option<Ending>, done: u64) -> Result<(), AllocError>
    ensures ok { OnOk result (out.new.items ≡ out.old.items ++ (Report.run_word ending ++ codes " after " ++ decimal done ++ 10 ∷ [])) }
{
    push_run_word(out, ending)?;
    push_bytes(out, b" after ")?;
    push_decimal(out, done)?;
    push_bytes(out, b"\n")
}

/// Appends how a run ended.
fn push_run_word(out: &mut Vec<u8>, ending: Option<Ending>) -> Result<(), AllocError>
    ensures ok { OnOk result (out.new.items ≡ out.old.items ++ Report.run_word ending) }
{
    match ending {
        None => push_bytes(out, b"running"),
        Some(Ending::End) => push_bytes(out, b"ended"),
        Some(Ending::StackEnd) => push_bytes(out, b"stack full"),
        Some(Ending::OutOfCode) => push_bytes(out, b"out of code"),
        Some(Ending::Illegal) => push_bytes(out, b"illegal"),
    }
}
