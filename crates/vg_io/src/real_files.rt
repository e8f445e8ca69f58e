ghost use Rattle.std.specs.Prelude.{◌≡◌, ◌≤◌, [], None, IfOk, is_err, vec_len, if◌then◌else◌};
ghost use Rattle.vg_io.specs.Count.{one_more};
ghost use Rattle.vg_io.specs.Files.{Asks, CountsLoad};

use crate::{Files, LoadFault};
use std::alloc::Global;
use std::io::{self, ErrorKind, Read};
use std::marker::Model;
use std::{fs, rt};

/// The files of the system. It tells no bytes.
#[derive(Drop)]
pub struct RealFiles<'a, R> {
    runtime: &'a R,
    asked: Vec<String>,
    faults: u64,
}

impl<'a, R> Model for RealFiles<'a, R> {
    ghost use Rattle.vg_io.specs.RealFiles.{RealFilesState};
    ghost use Rattle.vg_io.specs.Texts.{texts};

    ghost Value = { RealFilesState };

    ghost view = { λ f. record { asked = texts f.asked.items; faults = f.faults } };
}

impl<'a, R: rt::Files> RealFiles<'a, R> {
    /// The files of this runtime, of which none was loaded so far.
    pub fn new(alloc: Global, runtime: &'a R) -> RealFiles<'a, R>
        ensures { result ≡ record { asked = []; faults = 0 } }
    {
        RealFiles {
            runtime,
            asked: Vec::new(alloc),
            faults: 0,
        }
    }

    // Each `Err` is counted.
    fn load_counted(&mut self, alloc: Global, name: &str, most: usize) -> Result<Vec<u8>, LoadFault>
        ensures within { IfOk result (λ bytes. vec_len bytes ≤ most) }
        ensures asked { Asks result name.now self.old.asked self.new.asked }
        ensures kept_faults { self.old.faults ≤ self.new.faults }
        ensures counts { CountsLoad result self.old.faults self.new.faults }
        ensures faults { self.new.faults ≡ (if is_err result then one_more self.old.faults else self.old.faults) }
    {
        let loaded = self.read(alloc, name, most);
        if loaded.is_err() {
            self.faults = self.faults.saturating_add(1);
        }
        loaded
    }

    fn read(&mut self, alloc: Global, name: &str, most: usize) -> Result<Vec<u8>, LoadFault>
        ensures within { IfOk result (λ bytes. vec_len bytes ≤ most) }
        ensures asked { Asks result name.now self.old.asked self.new.asked }
        ensures faults { self.new.faults ≡ self.old.faults }
    {
        let copy = String::from_str(alloc, name)?;
        self.asked.push(copy)?;
        match read_beginning(alloc, self.runtime, name, most) {
            Ok(bytes) => Ok(bytes),
            Err(error) if error.kind() == ErrorKind::OutOfMemory => Err(LoadFault::OutOfMemory),
            Err(_) => Err(LoadFault::Failed),
        }
    }
}

fn read_beginning<R: rt::Files>(
    alloc: Global,
    runtime: &R,
    name: &str,
    most: usize,
) -> io::Result<Vec<u8>>
    ensures { IfOk result (λ bytes. vec_len bytes ≤ most) }
{
    let file = fs::open(runtime, name)?;
    let mut bytes = Vec::new(alloc);
    file.take(most as u64).read_to_end(&mut bytes)?;

    // `take` gives no more, which no clause of it says of a file whose bytes aren't told.
    bytes.truncate(most);
    Ok(bytes)
}

impl<R: rt::Files> Files for RealFiles<'_, R> {
    ghost held = { λ _. None };

    ghost faults = { λ f. f.faults };

    ghost asked = { λ f. f.asked };

    fn load(&mut self, alloc: Global, name: &str, most: usize) -> Result<Vec<u8>, LoadFault> {
        self.load_counted(alloc, name, most)
    }
}
