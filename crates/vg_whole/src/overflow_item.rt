#![tactic(auto, using(vg_names::proofs::FirstLemmas::first_steps))]

ghost use Rattle.std.specs.Prelude.{◌≡◌, [], ◌++◌, map, Some, slice_get};
ghost use Rattle.vg_ast.specs.declared.field.Field.{Field};
ghost use Rattle.vg_ast.specs.declared.fix.Fix.{Fix};
ghost use Rattle.vg_ast.specs.declared.parameter.Parameter.{Parameter};
ghost use Rattle.vg_names.specs.Definition.{fields_of_format, item_named};
ghost use Rattle.vg_names.specs.First.{first_of};
ghost use Rattle.vg_names.specs.Inner.{inner_names};
ghost use Rattle.vg_names.specs.Table.{parameters_of};
ghost use Rattle.vg_names.specs.Unknown.{in_each};
ghost use Rattle.vg_whole.specs.Overflow.{expression_overflows, type_overflows, range_overflows, part_overflows, item_overflows, statement_overflows, typed_names};
ghost use Rattle.vg_whole.specs.Worths.{constants_by};

use crate::Worth;
use crate::bindings::Bindings;
use crate::overflow_expression::{expression, global, optional, type_of};
use crate::overflow_statement::statement;
use sqlite_items::Boxed;
use vg_ast::{Expr, Field, Fix, Item, Name, Parameter, Part, Range, Statement, TypeExpr};
use vg_names::{Inner, Table};

/// The first operator of the types of parameters that leaves the whole numbers.
fn parameters(parameters: &[Parameter], table: &Table, worths: &[Worth]) -> Option<usize>
    ensures { result ≡ first_of (in_each (λ (parameter : Parameter). type_overflows (constants_by table.now.items.now worths.now) parameter.declared []) parameters.now) }
{
    for parameter in parameters {
        if let Some(at) = type_of(&parameter.declared, table, worths) {
            return Some(at);
        }
    }
    None
}

fn range(range: &Range, table: &Table, worths: &[Worth]) -> Option<usize>
    ensures { result ≡ first_of (range_overflows (constants_by table.now.items.now worths.now) range.now) }
{
    global(range.high.get(), table, worths).or(optional(&range.low, table, worths))
}

/// The first operator of the ranges of a field.
fn ranges(ranges: &[Range], table: &Table, worths: &[Worth]) -> Option<usize>
    ensures { result ≡ first_of (in_each (range_overflows (constants_by table.now.items.now worths.now)) ranges.now) }
{
    for one in ranges {
        if let Some(at) = range(one, table, worths) {
            return Some(at);
        }
    }
    None
}

/// The first operator of the ranges of fields.
fn fields(fields: &[Field], table: &Table, worths: &[Worth]) -> Option<usize>
    ensures { result ≡ first_of (in_each (λ (field : Field). in_each (range_overflows (constants_by table.now.items.now worths.now)) field.ranges) fields.now) }
{
    for field in fields {
        if let Some(at) = ranges(field.ranges.as_slice(), table, worths) {
            return Some(at);
        }
    }
    None
}

/// The first operator of the fixed fields of an encoding.
fn fixes(fixes: &[Fix], table: &Table, worths: &[Worth]) -> Option<usize>
    ensures { result ≡ first_of (in_each (λ (fix : Fix). expression_overflows (constants_by table.now.items.now worths.now) fix.value []) fixes.now) }
{
    for fix in fixes {
        if let Some(at) = global(fix.value.get(), table, worths) {
            return Some(at);
        }
    }
    None
}

fn part(part: &Part, table: &Table, worths: &[Worth]) -> Option<usize>
    ensures { result ≡ first_of (part_overflows (constants_by table.now.items.now worths.now) part.now) }
{
    match part {
        Part::Target { shift, .. } => global(shift.get(), table, worths),
        _ => None,
    }
}

/// The first operator of the parts of an assembly.
fn parts(parts: &[Part], table: &Table, worths: &[Worth]) -> Option<usize>
    ensures { result ≡ first_of (in_each (part_overflows (constants_by table.now.items.now worths.now)) parts.now) }
{
    for one in parts {
        if let Some(at) = part(one, table, worths) {
            return Some(at);
        }
    }
    None
}

/// The fields of a format.
#[tactic(auto, using(vg_names::proofs::InnerLemmas::numbered_fields, vg_names::proofs::InnerLemmas::unnumbered_fields))]
fn fields_of_format_named(format: &Name, table: &Table) -> Inner<'static>
    ensures { inner_names table.now.items.now result ≡ fields_of_format (item_named table.now.items.now format.now.text) }
{
    match table.number(format.text.as_slice()) {
        None => Inner::Nothing,
        Some(number) => Inner::Fields(number),
    }
}

/// The first operator of the function of this number.
fn function(
    number: usize,
    declared: &[Parameter],
    given: &TypeExpr<Boxed<Expr>>,
    body: &Expr,
    table: &Table,
    worths: &[Worth],
) -> Option<usize>
    requires { parameters_of (slice_get table.now.items.now number) ≡ map (λ (parameter : Parameter). parameter.name.text) declared.now }
    ensures { result ≡ first_of (in_each (λ (parameter : Parameter). type_overflows (constants_by table.now.items.now worths.now) parameter.declared []) declared.now ++ type_overflows (constants_by table.now.items.now worths.now) given.now [] ++ expression_overflows (constants_by table.now.items.now worths.now) body.now (typed_names (map (λ (parameter : Parameter). parameter.name.text) declared.now))) }
{
    parameters(declared, table, worths)
        .or(type_of(given, table, worths))
        .or(expression(
            body,
            &Bindings::Typed(Inner::Parameters(number)),
            table,
            worths,
        ))
}

/// The first operator of a behaviour, where the fields of the format are in scope.
fn behaviour_of(
    behaviour: &Statement,
    format: &Name,
    table: &Table,
    worths: &[Worth],
) -> Option<usize>
    ensures { result ≡ first_of (statement_overflows (constants_by table.now.items.now worths.now) behaviour.now (typed_names (fields_of_format (item_named table.now.items.now format.now.text)))) }
{
    let fields = Bindings::Typed(fields_of_format_named(format, table));
    statement(behaviour, &fields, table, worths)
}

/// The first operator of the item of this number.
fn item(number: usize, item: &Item, table: &Table, worths: &[Worth]) -> Option<usize>
    requires { slice_get table.now.items.now number ≡ Some item.now }
    ensures { result ≡ first_of (item_overflows table.now.items.now (constants_by table.now.items.now worths.now) item.now) }
{
    match item {
        Item::Constant { value, .. } => global(value.get(), table, worths),
        Item::Using { meaning, .. } => type_of(meaning, table, worths),
        Item::Function {
            parameters: declared,
            result: given,
            body,
            ..
        } => function(
            number,
            declared.as_slice(),
            given,
            body.get(),
            table,
            worths,
        ),
        Item::ProgramCounter { declared, .. } | Item::Register { declared, .. } => {
            type_of(declared, table, worths)
        }
        Item::Memory { address, cell, .. } => {
            type_of(address, table, worths).or(type_of(cell, table, worths))
        }
        Item::RegisterFile {
            index,
            declared,
            zero,
            ..
        } => type_of(index, table, worths)
            .or(type_of(declared, table, worths))
            .or(optional(zero, table, worths)),
        Item::Format {
            declared,
            fields: named,
            ..
        } => type_of(declared, table, worths).or(fields(named.as_slice(), table, worths)),
        Item::Instruction {
            format,
            behaviour,
            ..
        } => behaviour_of(behaviour.get(), format, table, worths),
        Item::Encoding { fixes: fixed, .. } => fixes(fixed.as_slice(), table, worths),
        Item::Assembly { parts: row, .. } => parts(row.as_slice(), table, worths),
    }
}

/// The first operator of the items.
pub fn items(table: &Table, worths: &[Worth]) -> Option<usize>
    ensures { result ≡ first_of (in_each (item_overflows table.now.items.now (constants_by table.now.items.now worths.now)) table.now.items.now) }
{
    for (number, one) in table.items.iter().enumerate() {
        if let Some(at) = item(number, one, table, worths) {
            return Some(at);
        }
    }
    None
}
