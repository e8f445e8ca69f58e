//! Whether a word matches an instruction.
ghost use Rattle.std.specs.Prelude.{◌≡◌, IsTrue, nat_eq};
ghost use Rattle.std.specs.List.{list_all};
ghost use Rattle.vg_isa.specs.Accepted.{is_fixed, is_instr};
ghost use Rattle.vg_isa.specs.declared.ids.FormatId.{FormatId as Format};
ghost use Rattle.vg_isa.specs.Declaration.{field_of};
ghost use Rattle.vg_format.specs.Matching.{matches};

use vg_bits::Bits;
use vg_isa::{FieldId, FormatId, Instr, Isa, field};

/// Whether fields of a format have their fixed values in a word.
#[inline(always)]
fn has_fixed(isa: &Isa, format: FormatId, fixed: &[(FieldId, Bits)], word: Bits) -> bool
    requires word { word.width ≡ isa.now.word }
    requires fixed { IsTrue (list_all (is_fixed isa.now format) fixed.now) }
    ensures { result ≡ list_all (λ fix. nat_eq (field_of isa.now fix.0 word.number).number fix.1.number) fixed.now }
{
    for (id, value) in fixed {
        if field(isa, *id, word).value() != value.value() {
            return false;
        }
    }
    true
}

/// Whether a word matches an instruction of this description.
#[inline(always)]
#[tactic(auto, using(vg_isa::proofs::Kept::fixed_kept))]
pub fn matches(isa: &Isa, instr: &Instr, word: Bits) -> bool
    requires instr { IsTrue (is_instr isa.now instr.now) }
    requires word { word.width ≡ isa.now.word }
    ensures { result ≡ matches isa.now word.number instr.now }
{
    has_fixed(isa, instr.format, instr.fixed.as_slice(), word)
}
