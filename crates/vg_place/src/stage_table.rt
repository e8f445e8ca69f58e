ghost use Rattle.std.specs.Prelude.{◌≡◌, ◌≤◌};
ghost use Rattle.vg_place.specs.Stage.{read_stage, write_stage};

use sqlite_items::Items;
use vg_isa::ResourceId;

/// The stages in which a resource is read and written. One that is never read is read in stage 0, one that is
/// never written is written in the last stage.
#[derive(Clone, Copy, Debug, PartialEq, Eq)]
pub struct Access {
    pub read: u8,
    pub write: u8,
}

/// Which stage of a micro architecture does what. Stages are counted from 0.
#[derive(Drop)]
pub struct Stages {
    /// How many there are: 1 to 16.
    pub count: u8,
    /// The one that computes operators.
    pub compute: u8,
    /// The one that decides on the next program counter.
    pub resolve: u8,
    pub memory: Access,
    /// For each register and register file.
    pub registers: Items<Access>,
}

impl Stages {
    /// The stage in which a resource is read; 0 for one that isn't declared.
    pub fn read(&self, r: ResourceId) -> u8
        ensures { result ≡ read_stage self.now r }
    {
        match r {
            ResourceId::Memory => self.memory.read,
            ResourceId::Reg(r) => match self.registers.get(r.0 as usize) {
                None => 0,
                Some(access) => access.read,
            },
        }
    }

    /// The stage in which a resource is written; the last one for a resource that isn't declared.
    pub fn write(&self, r: ResourceId) -> u8
        ensures { result ≡ write_stage self.now r }
    {
        match r {
            ResourceId::Memory => self.memory.write,
            ResourceId::Reg(r) => match self.registers.get(r.0 as usize) {
                None => self.count.saturating_sub(1),
                Some(access) => access.write,
            },
        }
    }
}
