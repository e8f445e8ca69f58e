ghost use Rattle.std.specs.Prelude.{◌≡◌, ◌≤◌, map};
ghost use Rattle.vg_top.specs.Driving.{IsFinal};
ghost use Rattle.vg_top.specs.Theorem.{Meets, StopsPutting, Writes};
ghost use Rattle.vg_top.specs.Words.{word_bytes};

use crate::answer::Answer;
use crate::commands::answer_to;
use crate::status::Status;
use std::alloc::{AllocError, Global};
use vg_io::{Files, PutAllFault, Sink, put_all};

/// Writes an answer, and gives its status, or why it was cut short.
fn write_answer<K: Sink>(out: &mut K, answer: &Answer) -> Status
    requires { IsFinal answer.now.status answer.now.text.items }
    ensures writes { Writes answer.now.status answer.now.text.items result
        (record { written = K.written out.old; faults = K.faults out.old; nones = K.nones out.old })
        (record { written = K.written out.new; faults = K.faults out.new; nones = K.nones out.new }) }
    ensures read { result ≡ Status.ReadFault → K.written out.new ≡ K.written out.old }
    ensures unread { answer.now.status ≡ Status.ReadFault → result ≡ Status.ReadFault }
    ensures at_once { StopsPutting result (K.faults out.old) (K.nones out.old) (K.faults out.new) (K.nones out.new) }
    ensures kept_faults { K.faults out.old ≤ K.faults out.new }
    ensures kept_nones { K.nones out.old ≤ K.nones out.new }
{
    if answer.text.is_empty() {
        return answer.status;
    }
    match put_all(out, answer.text.as_slice()) {
        Ok(()) => answer.status,
        Err(PutAllFault::Write) => Status::WriteFault,
        Err(PutAllFault::OutOfMemory) => Status::OutOfMemory,
    }
}

/// The program: does what the words ask for, with these files and this output.
pub fn vadlgen<F: Files, K: Sink>(
    alloc: Global,
    words: &[String],
    files: &mut F,
    out: &mut K,
) -> Status
    // The theorem: what is written, which files are asked for, and why.
    ensures { Meets (map word_bytes words.now) (record {
      files = record { held = F.held files.old; asked = F.asked files.old; faults = F.faults files.old };
      files_after = record { held = F.held files.new; asked = F.asked files.new; faults = F.faults files.new };
      output = record { written = K.written out.old; faults = K.faults out.old; nones = K.nones out.old };
      output_after = record { written = K.written out.new; faults = K.faults out.new; nones = K.nones out.new };
    }) result }
{
    match answer_to(alloc, words, files) {
        Ok(answer) => write_answer(out, &answer),
        Err(AllocError) => Status::OutOfMemory,
    }
}
