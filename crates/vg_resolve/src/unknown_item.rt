#![tactic(auto, using(vg_names::proofs::FirstLemmas::first_steps))]

ghost use Rattle.std.specs.Prelude.{◌≡◌, [], ◌++◌, map, Some, slice_get};
ghost use Rattle.vg_ast.specs.declared.field.Field.{Field};
ghost use Rattle.vg_ast.specs.declared.parameter.Parameter.{Parameter};
ghost use Rattle.vg_names.specs.Definition.{fields_of, fields_of_format, item_named};
ghost use Rattle.vg_names.specs.First.{first_of};
ghost use Rattle.vg_names.specs.Inner.{inner_names};
ghost use Rattle.vg_names.specs.Table.{format_named, parameters_of};
ghost use Rattle.std.specs.Option.{option_copied};
ghost use Rattle.vg_names.specs.Unknown.{is_format, is_instruction, unless as unless_of, global as global_of, in_each, type_unknowns, expression_unknowns, optional_unknowns, statement_unknowns, range_unknowns, fix_unknowns, part_unknowns, item_unknowns, has_encoding as has_encoding_of};

use crate::asked::Asked;
use crate::unknown_expression::{expression, optional, type_of};
use crate::unknown_name::{field_use, global, unless};
use crate::unknown_statement::statement;
use sqlite_items::Boxed;
use vg_ast::{Expr, Field, Fix, Item, Name, Parameter, Part, Range, Statement, TypeExpr};
use vg_names::{Inner, Scope, Table};

/// The first unknown name of the types of parameters.
fn parameters(parameters: &[Parameter], table: &Table) -> Option<usize>
    ensures { result ≡ first_of (in_each (λ (parameter : Parameter). type_unknowns table.now.items.now parameter.declared []) parameters.now) }
{
    for parameter in parameters {
        if let Some(at) = type_of(&parameter.declared, table, &Inner::Nothing) {
            return Some(at);
        }
    }
    None
}

fn range(range: &Range, table: &Table) -> Option<usize>
    ensures { result ≡ first_of (range_unknowns table.now.items.now range.now) }
{
    expression(range.high.get(), table, &Inner::Nothing).or(optional(&range.low, table))
}

/// The first unknown name of the ranges of a field.
fn ranges(ranges: &[Range], table: &Table) -> Option<usize>
    ensures { result ≡ first_of (in_each (range_unknowns table.now.items.now) ranges.now) }
{
    for one in ranges {
        if let Some(at) = range(one, table) {
            return Some(at);
        }
    }
    None
}

/// The first unknown name of the ranges of fields.
fn fields(fields: &[Field], table: &Table) -> Option<usize>
    ensures { result ≡ first_of (in_each (λ (field : Field). in_each (range_unknowns table.now.items.now) field.ranges) fields.now) }
{
    for field in fields {
        if let Some(at) = ranges(field.ranges.as_slice(), table) {
            return Some(at);
        }
    }
    None
}

fn fix(fix: &Fix, table: &Table, fields: &Inner) -> Option<usize>
    ensures { result ≡ first_of (fix_unknowns table.now.items.now (inner_names table.now.items.now fields.now) fix.now) }
{
    field_use(&fix.name, table, fields).or(expression(fix.value.get(), table, &Inner::Nothing))
}

/// The first unknown name of the fixed fields of an encoding.
fn fixes(fixes: &[Fix], table: &Table, fields: &Inner) -> Option<usize>
    ensures { result ≡ first_of (in_each (fix_unknowns table.now.items.now (inner_names table.now.items.now fields.now)) fixes.now) }
{
    for one in fixes {
        if let Some(at) = fix(one, table, fields) {
            return Some(at);
        }
    }
    None
}

fn part(part: &Part, table: &Table, fields: &Inner) -> Option<usize>
    ensures { result ≡ first_of (part_unknowns table.now.items.now (inner_names table.now.items.now fields.now) part.now) }
{
    match part {
        Part::Text { .. } | Part::Mnemonic { .. } => None,
        Part::Register { file, field, .. } => {
            global(file, Asked::RegisterFile, table, &Inner::Nothing).or(field_use(
                field, table, fields,
            ))
        }
        Part::Number { field, .. } => field_use(field, table, fields),
        Part::Target { field, shift, .. } => field_use(field, table, fields).or(expression(
            shift.get(),
            table,
            &Inner::Nothing,
        )),
    }
}

/// The first unknown name of the parts of an assembly.
fn parts(parts: &[Part], table: &Table, fields: &Inner) -> Option<usize>
    ensures { result ≡ first_of (in_each (part_unknowns table.now.items.now (inner_names table.now.items.now fields.now)) parts.now) }
{
    for one in parts {
        if let Some(at) = part(one, table, fields) {
            return Some(at);
        }
    }
    None
}

/// The fields of a format.
#[tactic(auto, using(vg_names::proofs::InnerLemmas::numbered_fields, vg_names::proofs::InnerLemmas::unnumbered_fields))]
fn fields_of_format_named(format: &Name, table: &Table) -> Inner<'static>
    ensures { inner_names table.now.items.now result ≡ fields_of_format (item_named table.now.items.now format.now.text) }
{
    match table.number(format.text.as_slice()) {
        None => Inner::Nothing,
        Some(number) => Inner::Fields(number),
    }
}

/// The format that an item names.
fn format_of(item: &Item) -> Option<&Name>
    ensures { option_copied result ≡ format_named item.now }
{
    match item {
        Item::Instruction { format, .. } => Some(format),
        _ => None,
    }
}

/// The fields of the format of an instruction.
#[tactic(auto, using(vg_names::proofs::InnerLemmas::no_item, vg_names::proofs::InnerLemmas::no_format, vg_names::proofs::InnerLemmas::with_format))]
fn fields_of_instruction(instruction: &Name, table: &Table) -> Inner<'static>
    ensures { inner_names table.now.items.now result ≡ fields_of table.now.items.now instruction.now.text }
{
    match table.item(instruction.text.as_slice()) {
        None => Inner::Nothing,
        Some(item) => match format_of(item) {
            None => Inner::Nothing,
            Some(format) => fields_of_format_named(format, table),
        },
    }
}

/// Whether an instruction has an encoding.
#[tactic(auto, using(vg_names::proofs::InnerLemmas::has_encodings))]
fn has_encoding(name: &Name, table: &Table) -> bool
    ensures { result ≡ has_encoding_of table.now.items.now name.now }
{
    table.has(Scope::Encodings, name.text.as_slice())
}

/// The first unknown name of the function of this number.
fn function(
    number: usize,
    declared: &[Parameter],
    given: &TypeExpr<Boxed<Expr>>,
    body: &Expr,
    table: &Table,
) -> Option<usize>
    requires { parameters_of (slice_get table.now.items.now number) ≡ map (λ (parameter : Parameter). parameter.name.text) declared.now }
    ensures { result ≡ first_of (in_each (λ (parameter : Parameter). type_unknowns table.now.items.now parameter.declared []) declared.now ++ type_unknowns table.now.items.now given.now [] ++ expression_unknowns table.now.items.now body.now (map (λ (parameter : Parameter). parameter.name.text) declared.now)) }
{
    parameters(declared, table)
        .or(type_of(given, table, &Inner::Nothing))
        .or(expression(body, table, &Inner::Parameters(number)))
}

/// The first unknown name of an instruction, or its own where it has no encoding.
fn instruction(name: &Name, format: &Name, behaviour: &Statement, table: &Table) -> Option<usize>
    ensures { result ≡ first_of (unless_of (has_encoding_of table.now.items.now name.now) name.now ++ global_of table.now.items.now [] is_format format.now ++ statement_unknowns table.now.items.now behaviour.now (fields_of_format (item_named table.now.items.now format.now.text))) }
{
    unless(has_encoding(name, table), name)
        .or(global(format, Asked::Format, table, &Inner::Nothing))
        .or(statement(behaviour, table, &fields_of_format_named(format, table)))
}

/// The first unknown name of an encoding, whose name is that of an instruction.
fn encoding(encoded: &Name, fixed: &[Fix], table: &Table) -> Option<usize>
    ensures { result ≡ first_of (global_of table.now.items.now [] is_instruction encoded.now ++ in_each (fix_unknowns table.now.items.now (fields_of table.now.items.now encoded.now.text)) fixed.now) }
{
    global(encoded, Asked::Instruction, table, &Inner::Nothing).or(fixes(
        fixed,
        table,
        &fields_of_instruction(encoded, table),
    ))
}

/// The first unknown name of an assembly, whose name is that of an instruction.
fn assembly(assembled: &Name, row: &[Part], table: &Table) -> Option<usize>
    ensures { result ≡ first_of (global_of table.now.items.now [] is_instruction assembled.now ++ in_each (part_unknowns table.now.items.now (fields_of table.now.items.now assembled.now.text)) row.now) }
{
    global(assembled, Asked::Instruction, table, &Inner::Nothing).or(parts(
        row,
        table,
        &fields_of_instruction(assembled, table),
    ))
}

/// The first unknown name of a register file.
fn register_file(
    index: &TypeExpr<Boxed<Expr>>,
    declared: &TypeExpr<Boxed<Expr>>,
    zero: &Option<Boxed<Expr>>,
    table: &Table,
) -> Option<usize>
    ensures { result ≡ first_of (type_unknowns table.now.items.now index.now [] ++ type_unknowns table.now.items.now declared.now [] ++ optional_unknowns table.now.items.now zero.now) }
{
    type_of(index, table, &Inner::Nothing)
        .or(type_of(declared, table, &Inner::Nothing))
        .or(optional(zero, table))
}

/// The first unknown name of the item of this number.
fn item(number: usize, item: &Item, table: &Table) -> Option<usize>
    requires { slice_get table.now.items.now number ≡ Some item.now }
    ensures { result ≡ first_of (item_unknowns table.now.items.now item.now) }
{
    let none = &Inner::Nothing;
    match item {
        Item::Constant { value, .. } => expression(value.get(), table, none),
        Item::Using {
            meaning: written,
            ..
        }
        | Item::ProgramCounter {
            declared: written,
            ..
        }
        | Item::Register {
            declared: written,
            ..
        } => type_of(written, table, none),
        Item::Function {
            parameters: declared,
            result: given,
            body,
            ..
        } => function(number, declared.as_slice(), given, body.get(), table),
        Item::Memory { address, cell, .. } => {
            type_of(address, table, none).or(type_of(cell, table, none))
        }
        Item::RegisterFile {
            index,
            declared,
            zero,
            ..
        } => register_file(index, declared, zero, table),
        Item::Format {
            declared,
            fields: named,
            ..
        } => type_of(declared, table, none).or(fields(named.as_slice(), table)),
        Item::Instruction {
            name,
            format,
            behaviour,
            ..
        } => instruction(name, format, behaviour.get(), table),
        Item::Encoding { name, fixes, .. } => encoding(name, fixes.as_slice(), table),
        Item::Assembly { name, parts, .. } => assembly(name, parts.as_slice(), table),
    }
}

/// The first unknown name of the items.
pub fn items(table: &Table) -> Option<usize>
    ensures { result ≡ first_of (in_each (item_unknowns table.now.items.now) table.now.items.now) }
{
    for (number, one) in table.items.iter().enumerate() {
        if let Some(at) = item(number, one, table) {
            return Some(at);
        }
    }
    None
}
