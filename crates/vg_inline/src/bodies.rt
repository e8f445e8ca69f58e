//! The bodies of functions with everything but their parameters in place, worked out one behind the other.
ghost use Rattle.std.specs.Prelude.{◌≡◌, [], Some, None, IfOk, OnOk, length, replicate};
ghost use Rattle.vg_names.specs.Duplicate.{duplicates};
ghost use Rattle.vg_names.specs.Cyclic.{IsOrder};
ghost use Rattle.vg_whole.specs.Worths.{constants_by};
ghost use Rattle.vg_inline.specs.Context.{aliases_by, bodies_as, bodies_by};
ghost use Rattle.vg_inline.specs.Inline.{bodies_of, body_step};
ghost use Rattle.vg_inline.specs.Kept.{keeping, keeping_as, kept_missing};
ghost use Rattle.vg_inline.specs.Scheduled.{AreWorked, SomeBodies};

use crate::Declared;
use crate::action::Action;
use crate::context::Context;
use crate::inlining::{constant_or, inline};
use crate::keep::{Keep, counts};
use crate::keeping::missing;
use crate::kept::Kept;
use crate::names::Names;
use crate::whole::declared_type;
use sqlite_items::{Items, at as item_at};
use std::alloc::{AllocError, Global};
use vg_ast::{Desc, Item};
use vg_names::Table;
use vg_whole::Worth;

/// The body of an item, where it is a function and the bodies of those that it calls are known.
fn body_of_item(
    alloc: Global,
    item: &Item,
    table: &Table,
    worths: &[Worth],
    aliases: &[Declared],
    bodies: &[Option<Kept>],
    keep: Keep,
) -> Result<Option<Kept>, AllocError>
    ensures { let all = table.now.items.now in IfOk result (λ body. body ≡ body_step (keeping_as keep) all (constants_by all worths.now) (aliases_by all aliases.now) (bodies_as keep all bodies.now) (Some item.now)) }
{
    match item {
        Item::Function {
            parameters,
            result,
            body,
            ..
        } => {
            let context = Context {
                table,
                worths,
                aliases,
                bodies,
                keep,
                parameters: parameters.as_slice(),
            };
            let value = inline(alloc, body.get(), &context, &Names::Parameters)?;
            let declared = declared_type(result, &context);
            constant_or(alloc, declared, value.worth, value.tree, keep)
        }
        _ => missing(alloc, keep),
    }
}

/// Every body is lacking.
fn lacking(alloc: Global, items: &[Item]) -> Result<Items<Option<Kept>>, AllocError>
    ensures { IfOk result (λ bodies. bodies ≡ replicate (length items.now) None) }
{
    let mut bodies = Items::new(alloc);
    for _ in items {
        bodies.push(None)?;
    }
    Ok(bodies)
}

fn no_bodies(alloc: Global, items: &[Item], keep: Keep) -> Result<Items<Option<Kept>>, AllocError>
    ensures { IfOk result (λ bodies. bodies ≡ replicate (length items.now) (kept_missing keep)) }
{
    let mut bodies = Items::new(alloc);
    for _ in items {
        bodies.push(missing(alloc, keep)?)?;
    }
    Ok(bodies)
}

/// What is kept of the bodies of the functions, each worked out once along the order.
pub(crate) fn bodies_kept(
    alloc: Global,
    description: &Desc,
    table: &Table,
    order: &[usize],
    worths: &[Worth],
    aliases: &[Declared],
    keep: Keep,
) -> Result<Items<Option<Kept>>, AllocError>
    requires items { table.now.items.now ≡ description.now.items }
    requires distinct { duplicates description.now ≡ [] }
    requires order { IsOrder description.now.items order.now }
    ensures { let all = description.now.items in IfOk result (λ bodies. bodies_as keep all bodies ≡ bodies_of (keeping_as keep) all (constants_by all worths.now) (aliases_by all aliases.now)) }
{
    let mut bodies = no_bodies(alloc, table.items, keep)?;
    for number in order {
        let body = body_of_item(
            alloc,
            &table.items[*number],
            table,
            worths,
            aliases,
            bodies.as_slice(),
            keep,
        )?;
        bodies.set(*number, body);
    }
    Ok(bodies)
}

/// Makes the body of a function, or drops it.
fn act(
    alloc: Global,
    action: Action,
    table: &Table,
    worths: &[Worth],
    aliases: &[Declared],
    bodies: &mut Items<Option<Kept>>,
    keep: Keep,
) -> Result<(), AllocError>
    requires worked { let all = table.now.items.now in AreWorked keep all (constants_by all worths.now) (aliases_by all aliases.now) }
    requires some { let all = table.now.items.now in SomeBodies keep all (constants_by all worths.now) (aliases_by all aliases.now) bodies.old }
    ensures { let all = table.now.items.now in OnOk result (SomeBodies keep all (constants_by all worths.now) (aliases_by all aliases.now) bodies.new) }
{
    match action {
        Action::Make(number) => match item_at(table.items, number) {
            None => Ok(()),
            Some(item) => {
                let body = body_of_item(
                    alloc,
                    item,
                    table,
                    worths,
                    aliases,
                    bodies.as_slice(),
                    keep,
                )?;
                bodies.set(number, body);
                Ok(())
            }
        },
        Action::Release(number) => {
            if number < bodies.len() {
                bodies.set(number, None);
            }
            Ok(())
        }
    }
}

/// The bodies of the functions that a schedule makes and doesn't drop.
pub(crate) fn bodies_by_schedule(
    alloc: Global,
    actions: &[Action],
    table: &Table,
    worths: &[Worth],
    aliases: &[Declared],
    keep: Keep,
) -> Result<Items<Option<Kept>>, AllocError>
    requires worked { let all = table.now.items.now in AreWorked keep all (constants_by all worths.now) (aliases_by all aliases.now) }
    ensures { let all = table.now.items.now in IfOk result (λ bodies. SomeBodies keep all (constants_by all worths.now) (aliases_by all aliases.now) bodies) }
{
    let mut bodies = lacking(alloc, table.items)?;
    for action in actions {
        act(alloc, *action, table, worths, aliases, &mut bodies, keep)?;
    }
    Ok(bodies)
}

/// How many nodes the bodies of the functions have, and which parameters.
pub fn work_out_bodies(
    alloc: Global,
    description: &Desc,
    table: &Table,
    order: &[usize],
    worths: &[Worth],
    aliases: &[Declared],
) -> Result<Items<Option<Kept>>, AllocError>
    requires items { table.now.items.now ≡ description.now.items }
    requires distinct { duplicates description.now ≡ [] }
    requires order { IsOrder description.now.items order.now }
    ensures { let all = description.now.items in IfOk result (λ bodies. bodies_by all bodies ≡ bodies_of keeping all (constants_by all worths.now) (aliases_by all aliases.now)) }
{
    bodies_kept(alloc, description, table, order, worths, aliases, counts())
}
