//! The program counter, the memory, and registers.

ghost use Rattle.std.specs.Prelude.{◌≡◌, true, IfOk};
ghost use Rattle.std.specs.List.{filter_map, list_all};
ghost use Rattle.std.specs.Option.{option_map, option_map_or};
ghost use Rattle.vg_isa.specs.Typing.{is_width};
ghost use Rattle.vg_type.specs.Setting.{setting_in};
ghost use Rattle.vg_declare.specs.AbiRole.{number_of as number_written};
ghost use Rattle.vg_processor.specs.IsaOf.{bytes_of, counter_of as counter_declared, declared_width as width_declared, memory_name as name_of_memory, register_decl};
ghost use Rattle.vg_processor.specs.Held.{holds_register_of, is_byte};

use crate::lists::push_some;
use crate::narrow::{byte_of, width_of};
use crate::text::text_of;
use crate::worth::number_of;
use sqlite_items::{Boxed, Items};
use std::alloc::{AllocError, Global};
use vg_ast::{Expr, Item, Name, TypeExpr};
use vg_inline::declared_type;
use vg_isa::{PcDecl, RegDecl, Text};
use vg_tree::width_or;
use vg_type::{Setting, width_in};

/// The width that is declared, or 0 where there is none.
pub(crate) fn declared_width(declared: &TypeExpr<Boxed<Expr>>, setting: &Setting) -> u128
    ensures { result ≡ width_declared (setting_in setting.now.context.now) declared.now }
{
    width_or(width_in(declared_type(declared, setting.context)))
}

/// A program counter.
fn counter(
    alloc: Global,
    name: &Name,
    declared: &TypeExpr<Boxed<Expr>>,
    setting: &Setting,
) -> Result<PcDecl, AllocError>
    requires { is_width (width_declared (setting_in setting.now.context.now) declared.now) ≡ true }
    ensures { IfOk result (λ it. it ≡ record { name = bytes_of name.now.text; width = width_declared (setting_in setting.now.context.now) declared.now }) }
{
    let name = text_of(alloc, name.text.as_slice())?;
    let width = width_of(declared_width(declared, setting));
    Ok(PcDecl { name, width })
}

/// The first program counter of items.
pub fn counter_of(alloc: Global, items: &[Item], setting: &Setting) -> Result<PcDecl, AllocError>
    requires { is_width (counter_declared (setting_in setting.now.context.now) items.now).width ≡ true }
    ensures { IfOk result (λ it. it ≡ counter_declared (setting_in setting.now.context.now) items.now) }
{
    for item in items {
        if let Item::ProgramCounter { name, declared, .. } = item {
            return counter(alloc, name, declared, setting);
        }
    }
    unreachable!()
}

/// The name of the first memory of items.
pub fn memory_name(alloc: Global, items: &[Item]) -> Result<Text, AllocError>
    ensures { IfOk result (λ it. it ≡ name_of_memory items.now) }
{
    for item in items {
        if let Item::Memory { name, .. } = item {
            return text_of(alloc, name.text.as_slice());
        }
    }
    Ok(Items::new(alloc))
}

/// The index of the register that is always 0.
fn zero_of(zero: &Option<Boxed<Expr>>, setting: &Setting) -> Option<u8>
    requires { option_map_or is_byte (option_map (number_written (setting_in setting.now.context.now)) zero.now) true ≡ true }
    ensures { result ≡ option_map (number_written (setting_in setting.now.context.now)) zero.now }
{
    match zero {
        None => None,
        Some(zero) => Some(byte_of(number_of(zero.get(), setting))),
    }
}

/// The registers that an item declares.
fn register_of(alloc: Global, item: &Item, setting: &Setting) -> Result<Option<RegDecl>, AllocError>
    requires { holds_register_of (setting_in setting.now.context.now) item.now ≡ true }
    ensures { IfOk result (λ it. it ≡ register_decl (setting_in setting.now.context.now) item.now) }
{
    match item {
        Item::Register { name, declared, .. } => {
            let name = text_of(alloc, name.text.as_slice())?;
            Ok(Some(RegDecl {
                name,
                index: None,
                width: width_of(declared_width(declared, setting)),
                zero: None,
            }))
        }
        Item::RegisterFile {
            name,
            index,
            declared,
            zero,
            ..
        } => {
            let name = text_of(alloc, name.text.as_slice())?;
            Ok(Some(RegDecl {
                name,
                index: Some(width_of(declared_width(index, setting))),
                width: width_of(declared_width(declared, setting)),
                zero: zero_of(zero, setting),
            }))
        }
        _ => Ok(None),
    }
}

/// The registers of items.
#[tactic(auto, using(crate::proofs::LoopLemmas::given_more))]
pub fn registers_of(
    alloc: Global,
    items: &[Item],
    setting: &Setting,
) -> Result<Items<RegDecl>, AllocError>
    requires { list_all (holds_register_of (setting_in setting.now.context.now)) items.now ≡ true }
    ensures { IfOk result (λ it. it ≡ filter_map (register_decl (setting_in setting.now.context.now)) items.now) }
{
    let mut registers = Items::new(alloc);
    for item in items {
        let register = register_of(alloc, item, setting)?;
        push_some(&mut registers, register)?;
    }
    Ok(registers)
}
