/// A part of an instruction's behaviour. The number is that of a write, counted from 0.
#[derive(Clone, Copy, Debug, PartialEq, Eq)]
pub enum Root {
    /// The condition under which the write is made.
    Guard(u32),
    /// The index or address of the write.
    At(u32),
    /// What the write writes.
    Value(u32),
    /// The condition under which the program counter is written.
    NextGuard,
    /// What the program counter is then.
    NextValue,
}
