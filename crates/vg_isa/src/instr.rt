use crate::Text;
use crate::expr::Expr;
use crate::ids::{FieldId, FormatId, RegId, ResourceId};
use sqlite_items::Items;
use vg_bits::Bits;

/// An instruction: its encoding, its behaviour and its line of assembly.
#[derive(Drop)]
pub struct Instr {
    pub name: Text,
    pub format: FormatId,
    /// The fields that the encoding fixes, with their values.
    pub fixed: Items<(FieldId, Bits)>,
    /// At most one for each resource, in the order in which the behaviour first names them.
    pub writes: Items<Write>,
    /// The guard and the value of what is written to the program counter.
    pub next: Option<(Expr, Expr)>,
    /// The parts of its line of assembly.
    pub template: Option<Items<Part>>,
    /// Where the guard and the value of `next` stand in the text.
    pub next_spots: Option<(Option<usize>, usize)>,
    /// Where the address of the memory read stands in the text.
    pub read_spot: Option<usize>,
}

/// A guarded write of a resource. The spots are the bytes of the text at which the parts stand.
#[derive(Drop)]
pub struct Write {
    pub resource: ResourceId,
    /// The condition of the paths that write.
    pub guard: Expr,
    /// The index of the register, or the address; None at a single register.
    pub at: Option<Expr>,
    pub value: Expr,
    pub guard_spot: Option<usize>,
    pub at_spot: Option<usize>,
    pub value_spot: usize,
}

/// A part of a line of assembly.
#[derive(Drop)]
pub enum Part {
    Lit(Text),
    Mnemonic,
    Register(RegId, FieldId),
    Decimal(FieldId),
    Signed(FieldId),
    Hex(FieldId),
    /// The field times 2 to a power, as a distance.
    Target(FieldId, u128),
}
