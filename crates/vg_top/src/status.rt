/// How the program ended. Its number in this order, from 0, is the exit status.
#[derive(Clone, Copy, Debug, PartialEq, Eq)]
pub enum Status {
    /// The report is written: a run has ended, or there was none.
    Done,
    /// A file was refused; the refusal line is written.
    Refused,
    /// The words are in no form; the usage line is written.
    Usage,
    /// A file wasn't loaded; nothing is written.
    ReadFault,
    /// A put failed or took nothing; a prefix of the text is written.
    WriteFault,
    /// No memory was left.
    OutOfMemory,
    /// The bound was done, and the run has not ended.
    Running,
    /// The run came to the full stop.
    StackFull,
    /// No instruction matches the word at the program counter.
    Illegal,
    /// No code word stands at the program counter.
    OutOfCode,
}
