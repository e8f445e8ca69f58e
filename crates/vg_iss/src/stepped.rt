ghost use Rattle.std.specs.Prelude.{◌≡◌};
ghost use Rattle.vg_iss.specs.Simulator.{stepped_of};

use vg_image::Ending;

/// What a step did.
#[derive(Clone, Copy, Debug, PartialEq, Eq)]
pub enum Stepped {
    /// It did an instruction.
    Moved,
    /// The program counter is the image's stop.
    End,
    /// The program counter is the image's full stop, where a failed check of the stack goes.
    StackEnd,
    /// No instruction matches the word at the program counter.
    Illegal,
    /// No code word stands at the program counter.
    OutOfCode,
    /// Memory for a store was refused.
    OutOfMemory,
}

/// The name of an ending.
#[inline(always)]
pub fn ended(ending: Ending) -> Stepped
    ensures { result ≡ stepped_of ending }
{
    match ending {
        Ending::End => Stepped::End,
        Ending::StackEnd => Stepped::StackEnd,
        Ending::OutOfCode => Stepped::OutOfCode,
        Ending::Illegal => Stepped::Illegal,
    }
}
