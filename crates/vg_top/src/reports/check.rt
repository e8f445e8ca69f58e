//! The report of a check.
ghost use Rattle.std.specs.Prelude.{◌≡◌, ◌++◌, OnOk};
ghost use Rattle.vg_top.specs.Reports.Check as Report;

use std::alloc::AllocError;
use vg_isa::Isa;
use vg_text::number::push_decimal;
use vg_text::piece::push_bytes;

/// Appends the report of a check: the name of the architecture, and the number of its instructions.
pub(crate) fn push_check_report(out: &mut Vec<u8>, isa: &Isa) -> Result<(), AllocError>
    ensures ok { OnOk result (out.new.items ≡ out.old.items ++ Report.check_report isa.now) }
{
    push_bytes(out, b"ok ")?;
    push_bytes(out, isa.name())?;
    push_bytes(out, b" ")?;
    push_decimal(out, isa.instrs().len() as u64)?;
    push_bytes(out, b"\n")
}
