//! Items of the instruction set part.

use crate::expression::{push_next, push_type};
use crate::statement::push_statement;
use crate::words::{push_characters, push_head, push_head_and_name, push_name, push_next_name};
use std::alloc::{AllocError, Global};
use vg_ast::{Field, Fix, Item, Name, NumberFormat, Parameter, Part};

/// The beginning of an item, with the name that it defines or is of.
fn push_named(
    alloc: Global,
    out: &mut String,
    word: &str,
    at: usize,
    name: &Name,
) -> Result<(), AllocError> {
    out.push_str("\n")?;
    push_head_and_name(alloc, out, word, at, name)
}

fn push_parameter(
    alloc: Global,
    out: &mut String,
    parameter: &Parameter,
) -> Result<(), AllocError> {
    out.push_str(" (")?;
    push_name(alloc, out, &parameter.name)?;
    push_type(&parameter.declared, alloc, out)?;
    out.push_str(")")
}

fn push_field(alloc: Global, out: &mut String, field: &Field) -> Result<(), AllocError> {
    out.push_str(" (")?;
    push_name(alloc, out, &field.name)?;
    for range in field.ranges.as_slice() {
        out.push_str(" (range")?;
        push_next(range.high.get(), alloc, out)?;
        if let Some(low) = &range.low {
            push_next(low.get(), alloc, out)?;
        }
        out.push_str(")")?;
    }
    out.push_str(")")
}

fn push_fix(alloc: Global, out: &mut String, fix: &Fix) -> Result<(), AllocError> {
    out.push_str(" (")?;
    push_name(alloc, out, &fix.name)?;
    push_next(fix.value.get(), alloc, out)?;
    out.push_str(")")
}

fn format_word(format: NumberFormat) -> &'static str {
    match format {
        NumberFormat::Decimal => "decimal",
        NumberFormat::Signed => "signed",
        NumberFormat::Hex => "hex",
    }
}

fn push_part(alloc: Global, out: &mut String, part: &Part) -> Result<(), AllocError> {
    out.push_str(" ")?;
    match part {
        Part::Text { at, text } => {
            push_head(alloc, out, "text", *at)?;
            out.push_str(" \"")?;
            push_characters(out, text.as_slice())?;
            out.push_str("\"")?;
        }
        Part::Mnemonic { at } => push_head(alloc, out, "mnemonic", *at)?,
        Part::Register { at, file, field } => {
            push_head(alloc, out, "register", *at)?;
            push_next_name(alloc, out, file)?;
            push_next_name(alloc, out, field)?;
        }
        Part::Number { format, at, field } => {
            push_head(alloc, out, format_word(*format), *at)?;
            push_next_name(alloc, out, field)?;
        }
        Part::Target { at, field, shift } => {
            push_head(alloc, out, "target", *at)?;
            push_next_name(alloc, out, field)?;
            push_next(shift.get(), alloc, out)?;
        }
    }
    out.push_str(")")
}

/// What an item begins with.
fn push_beginning(alloc: Global, out: &mut String, item: &Item) -> Result<(), AllocError> {
    match item {
        Item::Constant { at, name, .. } => push_named(alloc, out, "constant", *at, name),
        Item::Using { at, name, .. } => push_named(alloc, out, "using", *at, name),
        Item::Function { at, name, .. } => push_named(alloc, out, "function", *at, name),
        Item::ProgramCounter { at, name, .. } => push_named(alloc, out, "counter", *at, name),
        Item::Memory { at, name, .. } => push_named(alloc, out, "memory", *at, name),
        Item::Register { at, name, .. } => push_named(alloc, out, "register", *at, name),
        Item::RegisterFile { at, name, .. } => push_named(alloc, out, "file", *at, name),
        Item::Format { at, name, .. } => push_named(alloc, out, "format", *at, name),
        Item::Instruction { at, name, .. } => push_named(alloc, out, "instruction", *at, name),
        Item::Encoding { at, name, .. } => push_named(alloc, out, "encoding", *at, name),
        Item::Assembly { at, name, .. } => push_named(alloc, out, "assembly", *at, name),
    }
}

fn push_parameters(
    alloc: Global,
    out: &mut String,
    parameters: &[Parameter],
) -> Result<(), AllocError> {
    for parameter in parameters {
        push_parameter(alloc, out, parameter)?;
    }
    Ok(())
}

/// The parts of an item that declares something: types, values and parameters.
fn push_declared(alloc: Global, out: &mut String, item: &Item) -> Result<(), AllocError> {
    match item {
        Item::Constant { value, .. } => push_next(value.get(), alloc, out),
        Item::Using { meaning, .. } => push_type(meaning, alloc, out),
        Item::Function {
            parameters,
            result,
            body,
            ..
        } => {
            push_parameters(alloc, out, parameters.as_slice())?;
            push_type(result, alloc, out)?;
            push_next(body.get(), alloc, out)
        }
        Item::ProgramCounter { declared, .. } => push_type(declared, alloc, out),
        Item::Memory { address, cell, .. } => {
            push_type(address, alloc, out)?;
            push_type(cell, alloc, out)
        }
        Item::Register { declared, .. } => push_type(declared, alloc, out),
        Item::RegisterFile {
            index,
            declared,
            zero,
            ..
        } => {
            push_type(index, alloc, out)?;
            push_type(declared, alloc, out)?;
            match zero {
                Some(zero) => push_next(zero.get(), alloc, out),
                None => Ok(()),
            }
        }
        _ => Ok(()),
    }
}

/// The parts of an item on instructions: fields, behaviour, fixed fields, parts of a line of assembly.
fn push_coded(alloc: Global, out: &mut String, item: &Item) -> Result<(), AllocError> {
    match item {
        Item::Format {
            declared,
            fields,
            ..
        } => {
            push_type(declared, alloc, out)?;
            for field in fields.as_slice() {
                push_field(alloc, out, field)?;
            }
        }
        Item::Instruction {
            format,
            behaviour,
            ..
        } => {
            push_next_name(alloc, out, format)?;
            push_statement(behaviour.get(), alloc, out)?;
        }
        Item::Encoding { fixes, .. } => {
            for fix in fixes.as_slice() {
                push_fix(alloc, out, fix)?;
            }
        }
        Item::Assembly { parts, .. } => {
            for part in parts.as_slice() {
                push_part(alloc, out, part)?;
            }
        }
        _ => {}
    }
    Ok(())
}

/// An item on a line of its own.
pub fn push_item(alloc: Global, out: &mut String, item: &Item) -> Result<(), AllocError> {
    push_beginning(alloc, out, item)?;
    push_declared(alloc, out, item)?;
    push_coded(alloc, out, item)?;
    out.push_str(")")
}
