ghost use Rattle.std.specs.Prelude.{◌≡◌, flat_map};
ghost use Rattle.vg_ircheck.specs.Place.{first_place};
ghost use Rattle.vg_ircheck.specs.Seeking.{sought};
ghost use Rattle.vg_ircheck.specs.Counts.{first_beyond, most_instructions, block_words, function_words, instruction_word, terminator_word};

use crate::sought::Sought;
use vg_ir::{Block, Function, Instruction, Spot, Terminator};

/// The place of an instruction's word.
fn instruction_at(instruction: &Instruction) -> Spot
    ensures { result ≡ instruction_word instruction.now }
{
    match instruction {
        Instruction::Binary(binary) => binary.get().at,
        Instruction::Compare(compare) => compare.get().at,
        Instruction::Select(select) => select.get().at,
        Instruction::Cast(cast) => cast.get().at,
        Instruction::Freeze(freeze) => freeze.get().at,
        Instruction::Alloca(alloca) => alloca.get().at,
        Instruction::Load(load) => load.get().at,
        Instruction::Store(store) => store.get().at,
        Instruction::ElementPointer(element) => element.get().at,
        Instruction::Call(call) => call.get().at,
    }
}

/// The place of the word that ends a block.
fn terminator_at(terminator: &Terminator) -> Spot
    ensures { result ≡ terminator_word terminator.now }
{
    match terminator {
        Terminator::Jump(jump) => jump.get().at,
        Terminator::Branch(branch) => branch.get().at,
        Terminator::Switch(switch) => switch.get().at,
        Terminator::Return(end) => end.get().at,
        Terminator::Unreachable { at } => *at,
    }
}

/// The word of a number in a block.
fn block_word(block: &Block, number: usize) -> Sought
    ensures { result ≡ sought number (block_words block.now) }
{
    let phis = block.phis.as_slice();
    if number < phis.len() {
        return Sought::Found(phis[number].at);
    }
    let behind_phis = number - phis.len();
    let instructions = block.instructions.as_slice();
    if behind_phis < instructions.len() {
        return Sought::Found(instruction_at(&instructions[behind_phis]));
    }
    let behind = behind_phis - instructions.len();
    if behind == 0 {
        Sought::Found(terminator_at(&block.terminator))
    } else {
        Sought::Left(behind - 1)
    }
}

/// The word of a number in a function.
fn function_word(blocks: &[Block], number: usize) -> Sought
    ensures { result ≡ sought number (flat_map block_words blocks.now) }
{
    let mut left = number;
    for block in blocks {
        match block_word(block, left) {
            Sought::Found(at) => return Sought::Found(at),
            Sought::Left(behind) => left = behind,
        }
    }
    Sought::Left(left)
}

/// The word of a number in some functions.
fn module_word(functions: &[Function], number: usize) -> Sought
    ensures { result ≡ sought number (flat_map function_words functions.now) }
{
    let mut left = number;
    for function in functions {
        match function_word(function.blocks.as_slice(), left) {
            Sought::Found(at) => return Sought::Found(at),
            Sought::Left(behind) => left = behind,
        }
    }
    Sought::Left(left)
}

/// The first instruction too many.
pub fn instruction_beyond(functions: &[Function]) -> Option<Spot>
    ensures { result ≡ first_place (first_beyond most_instructions (flat_map function_words functions.now)) }
{
    match module_word(functions, 262144) {
        Sought::Found(at) => Some(at),
        Sought::Left(_) => None,
    }
}
