use vg_bits::Bits;

/// Where a location's value comes from.
#[derive(Clone, Copy, Debug, PartialEq, Eq)]
pub enum Choice {
    /// An older instruction gives this value.
    Take(Bits),
    /// The register or the memory itself has it.
    Register,
    /// It can't be had yet.
    Wait,
}
