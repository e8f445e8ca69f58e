/// Why a run does no further step.
#[derive(Clone, Copy, Debug, PartialEq, Eq)]
pub enum Ending {
    /// The program counter is the image's stop.
    End,
    /// The program counter is the image's full stop, where a failed check of the stack goes.
    StackEnd,
    /// No code word stands at the program counter.
    OutOfCode,
    /// No instruction matches the word at the program counter.
    Illegal,
}
