/// Where a value lives. Each number counts from 0.
#[derive(Clone, Copy, Debug, PartialEq, Eq, Hash)]
pub enum Place {
    /// The ABI's saved register of this number.
    Saved(u32),
    /// The ABI's argument register of this number.
    Argument(u32),
    /// The word of this number in the frame's area of slots.
    Slot(u32),
    /// The word of this number among the caller's outgoing arguments.
    In(u32),
    /// The word of this number among the frame's own outgoing arguments.
    Out(u32),
}
