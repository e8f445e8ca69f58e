ghost use Rattle.std.specs.Prelude.{◌≡◌, ◌≤◌, ◌<◌, ◌⊎◌, ℕ, OnOk, IfOk, IsErrOf, length, take};
ghost use Rattle.vg_io.specs.Count.{Rose};
ghost use Rattle.vg_io.specs.Putting.{StopsAtOnce};
ghost use Rattle.vg_io.specs.Sink.{append_known, count_taken};

use crate::{PutAllFault, PutFault, Sink};

/// Puts the whole text, piece by piece.
///
/// It stops at the first put that fails or takes nothing, and makes no put behind it. What was
/// written by then is a prefix of the text.
pub fn put_all<K: Sink>(out: &mut K, text: &[u8]) -> Result<(), PutAllFault>
    ensures whole { OnOk result (K.written out.new ≡ append_known (K.written out.old) text.now) }
    ensures prefix { (n : ℕ) × (K.written out.new ≡ append_known (K.written out.old) (take n text.now)) }
    ensures write { IsErrOf result PutAllFault.Write → Rose (K.faults out.old) (K.faults out.new) ⊎ Rose (K.nones out.old) (K.nones out.new) }
    ensures at_once { StopsAtOnce result (K.faults out.old) (K.nones out.old) (K.faults out.new) (K.nones out.new) }
    ensures kept_faults { K.faults out.old ≤ K.faults out.new }
    ensures kept_nones { K.nones out.old ≤ K.nones out.new }
{
    let mut rest = text;
    while !rest.is_empty() {
        let count = put_some(out, rest)?;
        let (_, behind) = rest.split_at(count);
        rest = behind;
    }
    Ok(())
}

fn put_some<K: Sink>(out: &mut K, piece: &[u8]) -> Result<usize, PutAllFault>
    requires { 0 < length piece.now }
    ensures some { IfOk result (λ count. 0 < count) }
    ensures within { IfOk result (λ count. count ≤ length piece.now) }
    ensures written { K.written out.new ≡ append_known (K.written out.old) (take (count_taken result) piece.now) }
    ensures write { IsErrOf result PutAllFault.Write → Rose (K.faults out.old) (K.faults out.new) ⊎ Rose (K.nones out.old) (K.nones out.new) }
    ensures at_once { StopsAtOnce result (K.faults out.old) (K.nones out.old) (K.faults out.new) (K.nones out.new) }
    ensures kept_faults { K.faults out.old ≤ K.faults out.new }
    ensures kept_nones { K.nones out.old ≤ K.nones out.new }
{
    match out.put(piece) {
        Ok(0) => Err(PutAllFault::Write),
        Ok(count) => Ok(count),
        Err(PutFault::Failed) => Err(PutAllFault::Write),
        Err(PutFault::OutOfMemory) => Err(PutAllFault::OutOfMemory),
    }
}
