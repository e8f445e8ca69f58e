//! Whole descriptions: the instruction set part, the application binary interface and the micro architecture.

use crate::expression::push_next;
use crate::item::push_item;
use crate::words::{push_head, push_name, push_next_name};
use std::alloc::{AllocError, Global};
use vg_ast::{Abi, Act, Desc, Micro, MicroItem, Register, Role};

fn push_register(alloc: Global, out: &mut String, register: &Register) -> Result<(), AllocError> {
    out.push_str(" (")?;
    push_name(alloc, out, &register.file)?;
    push_next(register.index.get(), alloc, out)?;
    out.push_str(")")
}

fn push_registers(
    alloc: Global,
    out: &mut String,
    word: &str,
    at: usize,
    registers: &[Register],
) -> Result<(), AllocError> {
    push_head(alloc, out, word, at)?;
    for register in registers {
        push_register(alloc, out, register)?;
    }
    Ok(())
}

fn push_role(alloc: Global, out: &mut String, role: &Role) -> Result<(), AllocError> {
    out.push_str("\n")?;
    match role {
        Role::StackPointer { at, register } => {
            push_head(alloc, out, "pointer", *at)?;
            push_register(alloc, out, register)?;
        }
        Role::ReturnAddress { at, register } => {
            push_head(alloc, out, "address", *at)?;
            push_register(alloc, out, register)?;
        }
        Role::ReturnValue { at, register } => {
            push_head(alloc, out, "value", *at)?;
            push_register(alloc, out, register)?;
        }
        Role::Arguments { at, registers } => {
            push_registers(alloc, out, "arguments", *at, registers.as_slice())?;
        }
        Role::Temporaries { at, registers } => {
            push_registers(alloc, out, "temporaries", *at, registers.as_slice())?;
        }
        Role::Saved { at, registers } => {
            push_registers(alloc, out, "saved", *at, registers.as_slice())?;
        }
        Role::Code { at, base } => {
            push_head(alloc, out, "code", *at)?;
            push_next(base.get(), alloc, out)?;
        }
        Role::Data { at, base } => {
            push_head(alloc, out, "data", *at)?;
            push_next(base.get(), alloc, out)?;
        }
        Role::Stack { at, low, high } => {
            push_head(alloc, out, "stack", *at)?;
            push_next(low.get(), alloc, out)?;
            push_next(high.get(), alloc, out)?;
        }
    }
    out.push_str(")")
}

fn push_act(alloc: Global, out: &mut String, act: &Act) -> Result<(), AllocError> {
    out.push_str(" ")?;
    match act {
        Act::Read { at, resource } => {
            push_head(alloc, out, "read", *at)?;
            push_next_name(alloc, out, resource)?;
        }
        Act::Write { at, resource } => {
            push_head(alloc, out, "write", *at)?;
            push_next_name(alloc, out, resource)?;
        }
        Act::Compute { at } => push_head(alloc, out, "compute", *at)?,
        Act::Resolve { at } => push_head(alloc, out, "resolve", *at)?,
    }
    out.push_str(")")
}

fn push_micro_item(alloc: Global, out: &mut String, item: &MicroItem) -> Result<(), AllocError> {
    out.push_str("\n")?;
    match item {
        MicroItem::Stage { at, name, acts } => {
            push_head(alloc, out, "stage", *at)?;
            push_next_name(alloc, out, name)?;
            for act in acts.as_slice() {
                push_act(alloc, out, act)?;
            }
        }
        MicroItem::Forward { at, resource } => {
            push_head(alloc, out, "forward", *at)?;
            push_next_name(alloc, out, resource)?;
        }
    }
    out.push_str(")")
}

/// The end of a part, on a line of its own.
fn push_close(alloc: Global, out: &mut String, at: usize) -> Result<(), AllocError> {
    let text = format!(in alloc; "\nend@{at}")?;
    out.push_str(text.as_str())
}

fn push_abi(alloc: Global, out: &mut String, abi: &Abi) -> Result<(), AllocError> {
    out.push_str("\n")?;
    push_head(alloc, out, "abi", abi.at)?;
    push_next_name(alloc, out, &abi.name)?;
    out.push_str(")")?;
    for role in abi.roles.as_slice() {
        push_role(alloc, out, role)?;
    }
    push_close(alloc, out, abi.close)
}

fn push_micro(alloc: Global, out: &mut String, micro: &Micro) -> Result<(), AllocError> {
    out.push_str("\n")?;
    push_head(alloc, out, "micro", micro.at)?;
    push_next_name(alloc, out, &micro.name)?;
    out.push_str(")")?;
    for item in micro.items.as_slice() {
        push_micro_item(alloc, out, item)?;
    }
    push_close(alloc, out, micro.close)
}

pub fn push_description(
    alloc: Global,
    out: &mut String,
    description: &Desc,
) -> Result<(), AllocError> {
    out.push_str("(isa ")?;
    push_name(alloc, out, &description.name)?;
    out.push_str(")")?;
    for item in description.items.as_slice() {
        push_item(alloc, out, item)?;
    }
    push_close(alloc, out, description.close)?;
    if let Some(abi) = &description.abi {
        push_abi(alloc, out, abi)?;
    }
    if let Some(micro) = &description.micro {
        push_micro(alloc, out, micro)?;
    }
    Ok(())
}
