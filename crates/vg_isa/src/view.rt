ghost use Rattle.std.specs.Prelude.{◌≡◌, ◌<◌, ◌≤◌, List, IsTrue};
ghost use Rattle.vg_isa.specs.declared.declaration.RegDecl.{RegDecl};
ghost use Rattle.vg_isa.specs.Declaration.{has_register};
ghost use Rattle.vg_isa.specs.Value.{Reads, memory_value};

use crate::ids::RegId;
use vg_bits::Bits;

/// A machine state, as behaviours read it.
pub trait View {
    /// What the state reads.
    ghost reads: { Self → Reads };

    /// The registers that it has.
    ghost registers: { Self → List RegDecl };

    /// The program counter.
    fn pc(&self) -> Bits
        ensures { result ≡ (reads self.now).pc };

    /// A register; the index of a single register is 0.
    fn reg(&self, r: RegId, i: u8) -> Bits
        requires { IsTrue (has_register (registers self.now) r.0 i) }
        ensures { result ≡ (reads self.now).reg r.0 i };

    /// So many bytes of memory from an address on, the least significant first; the addresses are taken
    /// modulo 2 to the width of the program counter.
    fn mem(&self, at: Bits, bytes: u8) -> Bits
        requires address { at.width ≡ (reads self.now).pc.width }
        requires some { 0 < bytes }
        requires few { bytes ≤ 16 }
        ensures { result ≡ memory_value (reads self.now).byte (reads self.now).pc.width at bytes };
}
