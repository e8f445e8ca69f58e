ghost use Rattle.std.specs.Prelude.{◌≡◌};
ghost use Rattle.vg_resolve.specs.Asked.{asked_of};
ghost use Rattle.vg_names.specs.Unknown.{is_right as is_right_by};

use vg_names::Meaning;

/// What a place asks of a name.
#[derive(Clone, Copy)]
pub enum Asked {
    Value,
    /// A function, or a register file with an index.
    Callable,
    Alias,
    Memory,
    RegisterFile,
    /// What may be written without an index.
    SingleGoal,
    Format,
    Instruction,
    /// What a stage may read, write and forward.
    Resource,
}

/// Whether a name that stands for this is what a place asks for.
fn answers(asked: Asked, meaning: Meaning) -> bool
    ensures { result ≡ asked_of asked meaning }
{
    match asked {
        Asked::Value => matches!(
            meaning,
            Meaning::Constant | Meaning::ProgramCounter | Meaning::Register
        ),
        Asked::Callable => matches!(meaning, Meaning::Function | Meaning::RegisterFile),
        Asked::Alias => matches!(meaning, Meaning::Alias),
        Asked::Memory => matches!(meaning, Meaning::Memory),
        Asked::RegisterFile => matches!(meaning, Meaning::RegisterFile),
        Asked::SingleGoal => matches!(meaning, Meaning::ProgramCounter | Meaning::Register),
        Asked::Format => matches!(meaning, Meaning::Format),
        Asked::Instruction => matches!(meaning, Meaning::Instruction),
        Asked::Resource => matches!(
            meaning,
            Meaning::Memory | Meaning::Register | Meaning::RegisterFile
        ),
    }
}

/// Whether a name that stands for this, or for nothing, is what a place asks for.
pub fn is_right(asked: Asked, meaning: Option<Meaning>) -> bool
    ensures { result ≡ is_right_by (asked_of asked) meaning }
{
    match meaning {
        None => false,
        Some(meaning) => answers(asked, meaning),
    }
}
