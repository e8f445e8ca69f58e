/// The registers of roles, as their rules part them.
#[derive(Clone, Copy)]
pub enum Registers {
    ReturnValue,
    Arguments,
    /// The registers of all other roles.
    Others,
}

/// The ends of the parts of memory.
#[derive(Clone, Copy)]
pub enum Bases {
    Code,
    Data,
    Stack,
}
