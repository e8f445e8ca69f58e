ghost use Rattle.std.specs.Prelude.{◌≡◌};
ghost use Rattle.std.specs.Option.{option_copied};
ghost use Rattle.vg_hazard.specs.Choosing.{choice_of, deciding, given_by};

use crate::choice::Choice;
use crate::writer::Writer;

/// What a writer gives that may write: its value where it surely writes, the value is there, and values may
/// be forwarded.
fn given(forward: bool, writer: &Writer) -> Choice
    ensures { result ≡ given_by forward writer.now }
{
    match (forward, writer.guard, writer.value) {
        (true, Some(true), Some(value)) => Choice::Take(value),
        _ => Choice::Wait,
    }
}

/// Of writers, oldest first, the one that decides: the youngest that may write.
fn deciding(writers: &[Writer]) -> Option<&Writer>
    ensures { option_copied result ≡ deciding writers.now }
{
    writers.iter().rev().find(|writer| writer.may_write())
}

/// Where the value of a location comes from, by the writers of it that are on their way, oldest first.
/// `forward` says whether a value may be taken from a writer before it is written.
///
/// From the youngest writer to the oldest: one that surely doesn't write is passed over; the first other one
/// decides. It gives its value where it surely writes, its value is there, and `forward` is true; else the
/// answer is `Wait`. Where each is passed over, or there is none, the answer is `Register`.
pub fn choose(forward: bool, writers: &[Writer]) -> Choice
    ensures { result ≡ choice_of forward writers.now }
{
    match deciding(writers) {
        None => Choice::Register,
        Some(writer) => given(forward, writer),
    }
}
