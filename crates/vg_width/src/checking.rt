//! The rules in their order.
ghost use Rattle.std.specs.Prelude.{◌≡◌, None, IfOk, IfErr};
ghost use Rattle.vg_inline.specs.Bodies.{AreBodies};
ghost use Rattle.vg_inline.specs.Rules.{IsFolded};
ghost use Rattle.vg_rule.specs.declared.rule.Rule.TheVariants as rules;
ghost use Rattle.vg_rule.specs.Fault.{Tells};
ghost use Rattle.vg_type.specs.Item.{setting_of};
ghost use Rattle.vg_type.specs.Setting.{setting_in};
ghost use Rattle.vg_width.specs.Asking.{IsKept, first_place};
ghost use Rattle.vg_width.specs.Rules.{breach_in};

use std::alloc::{AllocError, Global};
use vg_access::{first_two_accesses, first_two_writes};
use vg_ast::Desc;
use vg_declare::{first_abi_break, first_beyond, first_uncovered, first_unfit};
use vg_inline::{Context, Plain, counts, make_bodies};
use vg_names::Table;
use vg_rule::DescFault;
use vg_stage::{first_index_not_field, first_stage_break};
use vg_type::{Setting, first_faults};

/// The first place at which a format doesn't name each of its bits once.
#[tactic(auto, using(vg_declare::proofs::NarrowLemmas::are_narrow_in))]
fn uncovered(d: &Desc, setting: &Setting) -> Option<usize>
    requires setting { setting_in setting.now.context.now ≡ setting_of d.now.items }
    requires ranges { IsKept d.now rules.Range }
    ensures { result ≡ first_place d.now rules.FieldCover }
{
    first_uncovered(setting)
}

/// The first field that an encoding names again, or gives a value that doesn't fit.
fn unfit(alloc: Global, d: &Desc, setting: &Setting) -> Result<Option<usize>, AllocError>
    requires { setting_in setting.now.context.now ≡ setting_of d.now.items }
    ensures { IfOk result (λ found. found ≡ first_place d.now rules.FieldValue) }
{
    first_unfit(alloc, setting)
}

/// The first role that breaks a rule of the binary interface.
fn misplaced(alloc: Global, d: &Desc, setting: &Setting) -> Result<Option<usize>, AllocError>
    requires { setting_in setting.now.context.now ≡ setting_of d.now.items }
    ensures { IfOk result (λ found. found ≡ first_place d.now rules.AbiRole) }
{
    first_abi_break(alloc, &d.abi, setting)
}

/// The first thing of which there is too much.
fn beyond(d: &Desc, setting: &Setting) -> Option<usize>
    requires { setting_in setting.now.context.now ≡ setting_of d.now.items }
    ensures { result ≡ first_place d.now rules.Limit }
{
    first_beyond(setting)
}

/// The first rule that is broken, asked in a setting.
fn asked(alloc: Global, table: &Table, setting: &Setting, plain: &Plain) -> Result<(), DescFault>
    requires folded { IsFolded plain.now.description plain.now }
    requires table { table.now.items.now ≡ plain.now.description.items }
    requires items { setting.now.context.now.table.now.items.now ≡ plain.now.description.items }
    requires setting { setting_in setting.now.context.now ≡ setting_of plain.now.description.items }
    ensures kept { IfOk result (λ _. breach_in plain.now.description ≡ None) }
    ensures fault { IfErr result (λ f. Tells (breach_in plain.now.description) f) }
{
    let d = &plain.description;
    let mistyped = first_faults(d, setting);
    if let Some(at) = mistyped.width {
        return Err(DescFault::Width { at });
    }
    if let Some(at) = mistyped.range {
        return Err(DescFault::Range { at });
    }
    if let Some(at) = uncovered(d, setting) {
        return Err(DescFault::FieldCover { at });
    }
    if let Some(at) = unfit(alloc, d, setting)? {
        return Err(DescFault::FieldValue { at });
    }
    let bodies = make_bodies(alloc, table, plain)?;
    if let Some(at) = first_two_writes(alloc, setting, plain, &bodies)? {
        return Err(DescFault::TwoWrites { at });
    }
    if let Some(at) = first_two_accesses(alloc, setting, plain, &bodies)? {
        return Err(DescFault::TwoAccesses { at });
    }
    if let Some(at) = first_index_not_field(alloc, setting, plain, &bodies)? {
        return Err(DescFault::IndexNotField { at });
    }
    if let Some(at) = misplaced(alloc, d, setting)? {
        return Err(DescFault::AbiRole { at });
    }
    if let Some(at) = first_stage_break(alloc, setting, plain, &bodies)? {
        return Err(DescFault::StageOrder { at });
    }
    if let Some(at) = beyond(d, setting) {
        return Err(DescFault::Limit { at });
    }
    Ok(())
}

/// The first rule that is broken, of a description whose items are in a table.
fn in_table(alloc: Global, table: &Table, plain: &Plain) -> Result<(), DescFault>
    requires folded { IsFolded plain.now.description plain.now }
    requires table { table.now.items.now ≡ plain.now.description.items }
    ensures kept { IfOk result (λ _. breach_in plain.now.description ≡ None) }
    ensures fault { IfErr result (λ f. Tells (breach_in plain.now.description) f) }
{
    let context = Context {
        table,
        worths: plain.worths.as_slice(),
        aliases: plain.aliases.as_slice(),
        bodies: plain.bodies.as_slice(),
        keep: counts(),
        parameters: &[],
    };
    let setting = Setting::new(&context);
    asked(alloc, table, &setting, plain)
}

/// Asks the rules of types, ranges, formats, encodings, two writes, two accesses, indices, the binary interface and stages,
/// and the limits, in their order, of a description that keeps the rules of names, constants and the number of nodes. The
/// first that is broken is told at its first place.
pub fn check(alloc: Global, plain: &Plain) -> Result<(), DescFault>
    requires folded { IsFolded plain.now.description plain.now }
    ensures kept { IfOk result (λ _. breach_in plain.now.description ≡ None) }
    ensures fault { IfErr result (λ f. Tells (breach_in plain.now.description) f) }
{
    let table = Table::new(alloc, plain.description.items.as_slice())?;
    in_table(alloc, &table, plain)
}
