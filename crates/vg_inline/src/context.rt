ghost use Rattle.std.specs.Prelude.{◌≡◌};
ghost use Rattle.vg_names.specs.Numbers.{number_named};
ghost use Rattle.vg_names.specs.Worked.{value_at};
ghost use Rattle.vg_inline.specs.declared.declared.Declared.TheVariants.{Bool as BoolType};
ghost use Rattle.vg_inline.specs.Context.{aliases_in, constants_in, items_of};
ghost use Rattle.vg_inline.specs.Inline.{number_or};
ghost use Rattle.vg_whole.specs.Worths.{worth_at as worth_by};

use crate::Declared;
use crate::keep::Keep;
use crate::kept::Kept;
use vg_ast::Parameter;
use vg_names::Table;
use vg_whole::Worth;

/// What is known where something is put in place of names.
#[derive(Clone, Copy)]
pub struct Context<'a> {
    pub table: &'a Table<'a>,
    /// What each item is worth.
    pub worths: &'a [Worth],
    /// What each alias stands for, at its number.
    pub aliases: &'a [Declared],
    /// What is kept of the body of each function with everything but its parameters in place, at its number.
    pub bodies: &'a [Option<Kept>],
    /// What is kept of trees.
    pub keep: Keep,
    /// The parameters of the function that the expression is the body of.
    pub parameters: &'a [Parameter],
}

fn worth_at(worths: &[Worth], number: Option<usize>) -> Worth
    ensures { result ≡ worth_by worths.now number }
{
    match number {
        None => Worth::Typed,
        Some(number) => worths.get(number).copied().unwrap_or(Worth::Typed),
    }
}

/// What the name of an item is worth.
pub fn constant(context: &Context, text: &[char]) -> Worth
    ensures { result ≡ constants_in context.now text.now }
{
    worth_at(context.worths, context.table.number(text))
}

fn declared_at(aliases: &[Declared], number: Option<usize>) -> Declared
    ensures { result ≡ value_at BoolType aliases.now number }
{
    match number {
        None => Declared::Bool,
        Some(number) => aliases.get(number).copied().unwrap_or(Declared::Bool),
    }
}

/// What the name of an alias stands for.
pub fn alias(context: &Context, text: &[char]) -> Declared
    ensures { result ≡ aliases_in context.now text.now }
{
    declared_at(context.aliases, context.table.number(text))
}

/// The number of the item of a name, 0 where there is none.
pub fn number(context: &Context, text: &[char]) -> usize
    ensures { result ≡ number_or (number_named (items_of context.now) text.now) }
{
    match context.table.number(text) {
        None => 0,
        Some(number) => number,
    }
}
