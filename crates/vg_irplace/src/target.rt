/// What a processor and its binary interface say of where things stand.
#[derive(Clone, Copy, Debug, PartialEq, Eq)]
pub struct Target {
    /// The bits of an address: 16, 32 or 64.
    pub width: u8,
    /// Where data begins.
    pub data_base: u64,
    /// The lowest address of the stack.
    pub low: u64,
    /// The address behind the highest of the stack.
    pub high: u64,
    /// How many arguments are passed in registers.
    pub arguments: u32,
    /// How many registers a function saves.
    pub saved: u32,
}
