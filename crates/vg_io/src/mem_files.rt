ghost use Rattle.std.specs.Prelude.{◌≡◌, ◌≤◌, ◌⊎◌, [], Some, None, IfOk, IsErrOf, OnOk, option_map, vec_len, if◌then◌else◌};
ghost use Rattle.vg_io.specs.Count.{Rose, one_more};
ghost use Rattle.vg_io.specs.Files.{beginning, Asks, CountsLoad, load_failed};
ghost use Rattle.vg_io.specs.Schedule.{IsFailing, after_call};
ghost use Rattle.vg_io.specs.MemFiles.{bytes_named, named_bytes};
ghost use Rattle.vg_io.specs.Texts.{texts};

use crate::schedule::Schedule;
use crate::{Files, LoadFault};
use std::alloc::Global;
use std::marker::Model;

/// Files that are kept in memory.
#[derive(Debug, Drop)]
pub struct MemFiles {
    files: Vec<(String, Vec<u8>)>,
    schedule: Schedule,
    faults: u64,
    asked: Vec<String>,
}

impl Model for MemFiles {
    ghost use Rattle.vg_io.specs.MemFiles.{MemFilesState, named_bytes};
    ghost use Rattle.vg_io.specs.Texts.{texts};

    ghost Value = { MemFilesState };

    ghost view = { λ f. record { files = named_bytes f.files.items; schedule = f.schedule; faults = f.faults; asked = texts f.asked.items } };
}

impl MemFiles {
    /// Files with these names and bytes. Of two with one name the first counts. The loads whose
    /// numbers are in `failing` fail; they are counted from 0.
    pub fn new(alloc: Global, files: Vec<(String, Vec<u8>)>, failing: Vec<u64>) -> MemFiles
        ensures { result ≡ record { files = named_bytes files.items; schedule = record { failing = failing.items; made = 0 }; faults = 0; asked = [] } }
    {
        MemFiles {
            files,
            schedule: Schedule::new(failing),
            faults: 0,
            asked: Vec::new(alloc),
        }
    }

    /// The names loaded so far.
    pub fn asked(&self) -> &[String]
        ensures { texts result.now ≡ self.now.asked }
    {
        &self.asked
    }
}

fn find<'a>(files: &'a [(String, Vec<u8>)], name: &str) -> Option<&'a Vec<u8>>
    ensures { option_map (λ bytes. bytes.now.items) result ≡ bytes_named (named_bytes files.now) name.now }
{
    for file in files {
        if file.0.as_str() == name {
            return Some(&file.1);
        }
    }
    None
}

impl Files for MemFiles {
    ghost held = { λ f. Some (bytes_named f.files) };

    ghost faults = { λ f. f.faults };

    ghost asked = { λ f. f.asked };

    fn load(&mut self, alloc: Global, name: &str, most: usize) -> Result<Vec<u8>, LoadFault>
        ensures loaded { IfOk result (λ bytes. beginning (bytes_named self.old.files) name.now most ≡ Some bytes.items) }
        ensures within { IfOk result (λ bytes. vec_len bytes ≤ most) }
        ensures failed { IsErrOf result LoadFault.Failed → Rose self.old.faults self.new.faults }
        ensures kept_faults { self.old.faults ≤ self.new.faults }
        ensures counts { CountsLoad result self.old.faults self.new.faults }
        ensures asked { Asks result name.now self.old.asked self.new.asked }
        ensures same { self.new.files ≡ self.old.files }

        ensures fails { OnOk result (IsFailing self.old.schedule → ⊥) }
        ensures why { IsErrOf result LoadFault.Failed → IsFailing self.old.schedule ⊎ (bytes_named self.old.files name.now ≡ None) }
        ensures calls { self.new.schedule ≡ after_call self.old.schedule }
        ensures faults { self.new.faults ≡ (if load_failed result then one_more self.old.faults else self.old.faults) }
    {
        let fails = self.schedule.next_fails();
        let copy = String::from_str(alloc, name)?;
        self.asked.push(copy)?;
        if fails {
            self.faults = self.faults.saturating_add(1);
            return Err(LoadFault::Failed);
        }
        match find(&self.files, name) {
            None => {
                self.faults = self.faults.saturating_add(1);
                Err(LoadFault::Failed)
            }
            Some(bytes) => {
                let count = most.min(bytes.len());
                Ok(Vec::from_slice(alloc, &bytes[..count])?)
            }
        }
    }
}
