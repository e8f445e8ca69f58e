/// The declarations that stand in front of the instructions, in their order.
#[derive(Clone, Copy, Debug, PartialEq, Eq)]
pub(crate) enum Declaration {
    /// The program counter.
    Counter,
    Memory,
    /// The register file.
    File,
    Format,
}
