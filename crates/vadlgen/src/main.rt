//! The program: hands the words of the command line, the real files and the real output to
//! `vg_top::vadlgen`, and ends with the number of its status.
#![tactic(auto)]

ghost use Rattle.std.specs.Prelude.{◌≡◌, IfOk, drop};
ghost use Rattle.std.specs.Vec.Iter.{into_iter_items};

use std::alloc::{AllocError, Global};
use std::env::{self, Args};
use std::io;
use std::process::ExitCode;
use std::rt::Env;
use vg_io::{RealFiles, RealOut};
use vg_top::{Status, vadlgen};

/// All words but the first, which is the program's own name.
fn words_behind_name(alloc: Global, mut all: Args) -> Result<Vec<String>, AllocError>
    ensures { IfOk result (λ words. words.items ≡ drop 1 (into_iter_items all)) }
{
    let _name = all.next();
    let mut words = Vec::new(alloc);
    for word in all {
        words.push(word)?;
    }
    Ok(words)
}

/// The words behind the program's own name. A word that isn't UTF-8 makes a line that is in no form,
/// so no words stand for it.
fn words<R: Env + AllocGlobal>(rt: &R) -> Result<Vec<String>, AllocError> {
    match env::args(rt) {
        Ok(all) => words_behind_name(rt.alloc(), all),
        Err(error) if error.kind() == io::ErrorKind::OutOfMemory => Err(AllocError),
        Err(_) => Ok(Vec::new(rt.alloc())),
    }
}

fn main(rt: HostRuntime) -> ExitCode {
    let status = match words(&rt) {
        Ok(words) => {
            let mut files = RealFiles::new(rt.alloc(), &rt);
            let mut out = RealOut::new(&rt);
            vadlgen(rt.alloc(), words.as_slice(), &mut files, &mut out)
        }
        Err(AllocError) => Status::OutOfMemory,
    };
    ExitCode::from(status as u8)
}
