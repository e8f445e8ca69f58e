ghost use Rattle.std.specs.Prelude.{◌≡◌};
ghost use Rattle.std.specs.List.{list_any};
ghost use Rattle.vg_names.specs.First.{first_of};
ghost use Rattle.vg_names.specs.Unknown.{is_counter_item, is_memory_item, is_instruction_item, is_whole, lacking as lacking_of};

use vg_ast::Item;

fn has_counter(items: &[Item]) -> bool
    ensures { result ≡ list_any is_counter_item items.now }
{
    items
        .iter()
        .any(|item| matches!(item, Item::ProgramCounter { .. }))
}

fn has_memory(items: &[Item]) -> bool
    ensures { result ≡ list_any is_memory_item items.now }
{
    items.iter().any(|item| matches!(item, Item::Memory { .. }))
}

fn has_instruction(items: &[Item]) -> bool
    ensures { result ≡ list_any is_instruction_item items.now }
{
    items
        .iter()
        .any(|item| matches!(item, Item::Instruction { .. }))
}

/// Whether the items have a program counter, a memory and an instruction.
fn is_complete(items: &[Item]) -> bool
    ensures { result ≡ is_whole items.now }
{
    has_counter(items) && has_memory(items) && has_instruction(items)
}

/// The place of the `}` that closes the instruction set part, where something is lacking in it.
pub fn lacking(items: &[Item], close: usize) -> Option<usize>
    ensures { result ≡ first_of (lacking_of items.now close) }
{
    if is_complete(items) {
        None
    } else {
        Some(close)
    }
}
