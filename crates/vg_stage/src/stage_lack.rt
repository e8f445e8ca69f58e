//! The resources that lack an act.
ghost use Rattle.std.specs.Prelude.{◌≡◌, ℕ, ◌&&◌, not, nat_eq, map, Some, IfOk};
ghost use Rattle.std.specs.List.{list_any};
ghost use Rattle.std.proofs.Props.{props};
ghost use Rattle.vg_ast.specs.declared.item.Item.{Item as AnyItem};
ghost use Rattle.vg_inline.specs.Context.{items_of};
ghost use Rattle.vg_inline.specs.Inline.{number_or};
ghost use Rattle.vg_names.specs.Numbers.{number_named};
ghost use Rattle.vg_tree.specs.Resource.{memory_number as memory_number_of};
ghost use Rattle.vg_type.specs.Setting.{setting_in};
ghost use Rattle.vg_stage.specs.StageLack.{act_item, flag_at, is_done_on, lacks_act};
ghost use Rattle.vg_stage.specs.StageMet.{lines_have};
ghost use Rattle.vg_stage.specs.StageOrder.{is_resource as is_resource_of};

use crate::act_kind::ActKind;
use crate::stage_act::acts_of;
use sqlite_items::Items;
use std::alloc::{AllocError, Global};
use vg_ast::{Act, Item, MicroItem};
use vg_inline::Context;
use vg_names::Table;

/// The resources that lack an act of one kind.
#[derive(Drop)]
pub(crate) struct Lacking<'a> {
    pub context: &'a Context<'a>,
    /// The number of the memory.
    pub memory: usize,
    /// Whether the item of each number lacks an act.
    pub flags: Items<bool>,
    ghost first: { memory ≡ memory_number_of (items_of context.now) } by { Prim.hlevel props },
}

fn is_resource(item: &Item) -> bool
    ensures { result ≡ is_resource_of (Some item.now) }
{
    match item {
        Item::Memory { .. } | Item::Register { .. } | Item::RegisterFile { .. } => true,
        _ => false,
    }
}

/// Which items are resources.
fn resources(alloc: Global, items: &[Item]) -> Result<Items<bool>, AllocError>
    ensures { IfOk result (λ flags. flags ≡ map (λ (item : AnyItem). is_resource_of (Some item)) items.now) }
{
    let mut flags = Items::new(alloc);
    for item in items {
        flags.push(is_resource(item))?;
    }
    Ok(flags)
}

/// The number of the memory, 0 where there is none.
pub(crate) fn memory_number(items: &[Item]) -> usize
    ensures { result ≡ memory_number_of items.now }
{
    for (number, item) in items.iter().enumerate() {
        if let Item::Memory { .. } = item {
            return number;
        }
    }
    0
}

/// The number of the item of a name, 0 where there is none.
fn number(table: &Table, text: &[char]) -> usize
    ensures { result ≡ number_or (number_named table.now.items.now text.now) }
{
    match table.number(text) {
        None => 0,
        Some(number) => number,
    }
}

/// The number of the item on which an act of this kind is done.
fn item_of(act: &Act, kind: ActKind, table: &Table) -> Option<usize>
    ensures { result ≡ act_item table.now.items.now kind act.now }
{
    match (act, kind) {
        (Act::Read { resource, .. }, ActKind::Read)
        | (Act::Write { resource, .. }, ActKind::Write) => {
            Some(number(table, resource.text.as_slice()))
        }
        _ => None,
    }
}

/// The item of this number lacks nothing.
fn clear(flags: &mut Items<bool>, number: usize)
    ensures { (k : ℕ) → flag_at flags.new k ≡ (flag_at flags.old k && not (nat_eq k number)) }
{
    if number < flags.len() {
        flags.set(number, false);
    }
}

fn clear_act(flags: &mut Items<bool>, act: &Act, kind: ActKind, table: &Table)
    ensures { (k : ℕ) → flag_at flags.new k ≡ (flag_at flags.old k && not (is_done_on table.now.items.now kind k act.now)) }
{
    if let Some(number) = item_of(act, kind, table) {
        clear(flags, number);
    }
}

/// What these acts name lacks nothing.
fn clear_acts(flags: &mut Items<bool>, acts: &[Act], kind: ActKind, table: &Table)
    ensures { (k : ℕ) → flag_at flags.new k ≡ (flag_at flags.old k && not (list_any (is_done_on table.now.items.now kind k) acts.now)) }
{
    for act in acts {
        clear_act(flags, act, kind, table);
    }
}

/// What the acts of the stages name lacks nothing.
fn clear_lines(flags: &mut Items<bool>, lines: &[MicroItem], kind: ActKind, table: &Table)
    ensures { (k : ℕ) → flag_at flags.new k ≡ (flag_at flags.old k && not (lines_have (is_done_on table.now.items.now kind k) lines.now)) }
{
    for line in lines {
        clear_acts(flags, acts_of(line), kind, table);
    }
}

impl<'a> Lacking<'a> {
    /// The resources that lack an act of this kind in the stages.
    pub fn new(
        alloc: Global,
        context: &'a Context<'a>,
        lines: &[MicroItem],
        kind: ActKind,
    ) -> Result<Lacking<'a>, AllocError>
        ensures context { IfOk result (λ lacking. lacking.context.now ≡ context.now) }
        ensures flags { IfOk result (λ lacking. (k : ℕ) → flag_at lacking.flags k ≡ lacks_act (setting_in context.now) kind lines.now k) }
    {
        let table = context.table;
        let mut flags = resources(alloc, table.items)?;
        clear_lines(&mut flags, lines, kind, table);
        let memory = memory_number(table.items);
        Ok(Lacking {
            context,
            memory,
            flags,
        })
    }

    /// Whether the item of a number lacks an act.
    pub fn has(&self, number: usize) -> bool
        ensures { result ≡ flag_at self.now.flags number }
    {
        match self.flags.get(number) {
            None => false,
            Some(flag) => *flag,
        }
    }
}
