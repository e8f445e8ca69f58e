/// Where names must differ. A field, a parameter and an operand of an assembly belong to the item of this number.
#[derive(Clone, Copy, Debug, PartialEq, Eq, Hash)]
pub enum Scope {
    Items,
    /// There is one program counter, whatever its name.
    ProgramCounter,
    /// There is one memory, whatever its name.
    Memory,
    Encodings,
    Assemblies,
    Fields(usize),
    Parameters(usize),
    Operands(usize),
    Stages,
}
