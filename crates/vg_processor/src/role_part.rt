/// What roles name.
#[derive(Clone, Copy)]
pub enum RolePart {
    StackPointer,
    ReturnAddress,
    ReturnValue,
    Arguments,
    Temporaries,
    Saved,
    Code,
    Data,
    /// The two ends of the stack.
    Stack,
}
