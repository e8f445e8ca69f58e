//! The word of an instruction.
ghost use Rattle.std.specs.Prelude.{◌≡◌, IsTrue};
ghost use Rattle.std.specs.List.{list_all};
ghost use Rattle.vg_isa.specs.declared.ids.FormatId.{FormatId as Format};
ghost use Rattle.vg_isa.specs.Accepted.{is_fixed};
ghost use Rattle.vg_format.specs.Encoding.{IsEncoded, can_give};
ghost use Rattle.vg_format.specs.Replaced.{with_fields};

use crate::setting::set_field;
use vg_bits::Bits;
use vg_isa::{FieldId, FormatId, InstrId, Isa};

/// The word with fields of a format set, one after another.
pub(crate) fn set_fields(
    isa: &Isa,
    format: FormatId,
    fields: &[(FieldId, Bits)],
    word: Bits,
) -> Bits
    requires word { word.width ≡ isa.now.word }
    requires fields { IsTrue (list_all (is_fixed isa.now format) fields.now) }
    ensures { result ≡ record { width = word.width; number = with_fields isa.now fields.now word.number } }
{
    let mut changed = word;
    for (id, value) in fields {
        changed = set_field(isa, *id, changed, *value);
    }
    changed
}

/// The word of an instruction: the fields that its encoding fixes and those given are set, and every other bit is 0.
///
/// The given fields differ, and none of them is fixed.
pub fn encode(isa: &Isa, i: InstrId, fields: &[(FieldId, Bits)]) -> Bits
    requires { IsTrue (can_give isa.now i.0 fields.now) }
    ensures { IsEncoded isa.now i.0 fields.now result }
{
    // for the prover alone: the description keeps its rules
    let _ = isa.parts();
    let instr = isa.instr(i);
    let zero = Bits::of(isa.word(), 0);
    let fixed = set_fields(isa, instr.format, instr.fixed.as_slice(), zero);
    set_fields(isa, instr.format, fields, fixed)
}
