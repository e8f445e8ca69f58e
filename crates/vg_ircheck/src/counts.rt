ghost use Rattle.std.specs.Prelude.{◌≡◌, map, flat_map};
ghost use Rattle.vg_ir.specs.declared.function.Function.{Function as TheFunction};
ghost use Rattle.vg_ir.specs.declared.global.Global.{Global as TheGlobal};
ghost use Rattle.vg_ir.specs.declared.block.Block.{Block as TheBlock};
ghost use Rattle.vg_ircheck.specs.Place.{first_place};
ghost use Rattle.vg_ircheck.specs.Counts.{first_beyond, most_functions, most_globals, most_cases, parameter_excess, case_excess, case_numbers};

use crate::place::sooner;
use vg_ir::{Block, Function, Global, Spot, Terminator};

/// The first function too many.
#[tactic(auto, using(crate::proofs::CountLemmas::none_beyond, crate::proofs::CountLemmas::some_beyond))]
pub fn function_beyond(functions: &[Function]) -> Option<Spot>
    ensures { result ≡ first_place (first_beyond most_functions (map (λ (f : TheFunction). f.name.at) functions.now)) }
{
    match functions.get(4096) {
        None => None,
        Some(function) => Some(function.name.at),
    }
}

/// The first global too many.
#[tactic(auto, using(crate::proofs::CountLemmas::none_beyond, crate::proofs::CountLemmas::some_beyond))]
pub fn global_beyond(globals: &[Global]) -> Option<Spot>
    ensures { result ≡ first_place (first_beyond most_globals (map (λ (g : TheGlobal). g.name.at) globals.now)) }
{
    match globals.get(4096) {
        None => None,
        Some(global) => Some(global.name.at),
    }
}

/// The first parameter too many of a function.
#[tactic(auto, using(crate::proofs::CountLemmas::none_beyond, crate::proofs::CountLemmas::some_beyond))]
fn parameter_beyond(function: &Function) -> Option<Spot>
    ensures { result ≡ first_place (parameter_excess function.now) }
{
    match function.parameters.as_slice().get(64) {
        None => None,
        Some(parameter) => Some(parameter.name.at),
    }
}

/// The first place in the text at which a function has a parameter too many.
pub fn parameters_beyond(functions: &[Function]) -> Option<Spot>
    ensures { result ≡ first_place (flat_map parameter_excess functions.now) }
{
    let mut first = None;
    for function in functions {
        first = sooner(first, parameter_beyond(function));
    }
    first
}

/// The first case too many of a switch.
#[tactic(auto, using(crate::proofs::CountLemmas::none_beyond, crate::proofs::CountLemmas::some_beyond, crate::proofs::CountLemmas::beyond_of_none))]
fn case_beyond(terminator: &Terminator) -> Option<Spot>
    ensures { result ≡ first_place (first_beyond most_cases (case_numbers terminator.now)) }
{
    match terminator {
        Terminator::Switch(switch) => match switch.get().cases.as_slice().get(1024) {
            None => None,
            Some(case) => Some(case.at),
        },
        Terminator::Jump(_) => None,
        Terminator::Branch(_) => None,
        Terminator::Return(_) => None,
        Terminator::Unreachable { .. } => None,
    }
}

/// The first place in the text at which a switch of some blocks has a case too many.
fn block_cases_beyond(blocks: &[Block]) -> Option<Spot>
    ensures { result ≡ first_place (flat_map (λ (b : TheBlock). first_beyond most_cases (case_numbers b.terminator)) blocks.now) }
{
    let mut first = None;
    for block in blocks {
        first = sooner(first, case_beyond(&block.terminator));
    }
    first
}

/// The first place in the text at which a switch has a case too many.
pub fn cases_beyond(functions: &[Function]) -> Option<Spot>
    ensures { result ≡ first_place (flat_map case_excess functions.now) }
{
    let mut first = None;
    for function in functions {
        first = sooner(first, block_cases_beyond(function.blocks.as_slice()));
    }
    first
}
