//! Which instruction a word is, by trying all.
ghost use Rattle.std.specs.Prelude.{◌≡◌, IsTrue, IfSome, find};
ghost use Rattle.std.specs.Option.{option_copied};
ghost use Rattle.vg_isa.specs.Accepted.{is_instr};
ghost use Rattle.vg_format.specs.Matching.{matches};

use vg_bits::Bits;
use vg_format::matches;
use vg_isa::{Instr, Isa};

/// The first instruction that a word matches.
pub fn decode<'a>(isa: &'a Isa, word: Bits) -> Option<&'a Instr>
    requires word { word.width ≡ isa.now.word }
    ensures first { option_copied result ≡ find (matches isa.now word.number) isa.now.instrs }
    ensures typed { IfSome result (λ instr. IsTrue (is_instr isa.now instr.now)) }
{
    for instr in isa.instrs() {
        if matches(isa, instr, word) {
            return Some(instr);
        }
    }
    None
}
