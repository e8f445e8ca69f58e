ghost use Rattle.std.specs.Prelude.{◌≡◌};
ghost use Rattle.std.specs.Option.{option_copied};
ghost use Rattle.vg_names.specs.Definition.{definition_of, meaning_of};
ghost use Rattle.vg_names.specs.Table.{defined_name};

use vg_ast::{Item, Name};

/// What the name of an item stands for.
#[derive(Clone, Copy, Debug, PartialEq, Eq)]
pub enum Meaning {
    Constant,
    Alias,
    Function,
    ProgramCounter,
    Memory,
    Register,
    RegisterFile,
    Format,
    Instruction,
}

/// The name that an item defines.
pub fn defined_by(item: &Item) -> Option<&Name>
    ensures { option_copied result ≡ defined_name (definition_of item.now) }
{
    match item {
        Item::Constant { name, .. }
        | Item::Using { name, .. }
        | Item::Function { name, .. }
        | Item::ProgramCounter { name, .. }
        | Item::Memory { name, .. }
        | Item::Register { name, .. }
        | Item::RegisterFile { name, .. }
        | Item::Format { name, .. }
        | Item::Instruction { name, .. } => Some(name),
        Item::Encoding { .. } | Item::Assembly { .. } => None,
    }
}

/// What the name that an item defines stands for.
pub fn meaning_of_item(item: &Item) -> Option<Meaning>
    ensures { result ≡ meaning_of (definition_of item.now) }
{
    match item {
        Item::Constant { .. } => Some(Meaning::Constant),
        Item::Using { .. } => Some(Meaning::Alias),
        Item::Function { .. } => Some(Meaning::Function),
        Item::ProgramCounter { .. } => Some(Meaning::ProgramCounter),
        Item::Memory { .. } => Some(Meaning::Memory),
        Item::Register { .. } => Some(Meaning::Register),
        Item::RegisterFile { .. } => Some(Meaning::RegisterFile),
        Item::Format { .. } => Some(Meaning::Format),
        Item::Instruction { .. } => Some(Meaning::Instruction),
        Item::Encoding { .. } | Item::Assembly { .. } => None,
    }
}
