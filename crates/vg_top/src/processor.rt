ghost use Rattle.std.specs.Prelude.{IsTrue};
ghost use Rattle.vg_iss.specs.Kept.{is_memory_free};

use vg_isa::Isa;

/// A processor whose instructions write registers only, as the simulator takes them so far.
#[derive(Drop)]
pub(crate) struct Processor {
    pub isa: Isa,
    ghost memory_free: { IsTrue (is_memory_free isa) },
}
