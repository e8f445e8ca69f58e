ghost use Rattle.std.specs.Prelude.{◌≡◌, ◌⊎◌, [], None, Some, IfOk, IfErr, IsErrAnd, MatchResult};
ghost use Rattle.vg_names.specs.Duplicate.{duplicates};
ghost use Rattle.vg_names.specs.First.{first_of};
ghost use Rattle.vg_names.specs.Unknown.{unknowns};
ghost use Rattle.vg_names.specs.Cyclic.{IsOrder};
ghost use Rattle.vg_whole.specs.Overflow.{overflows};
ghost use Rattle.vg_whole.specs.Worths.{constants_of, constants_by, AreWorths};
ghost use Rattle.vg_inline.specs.Types.{aliases_of};
ghost use Rattle.vg_inline.specs.Inline.{bodies_of};
ghost use Rattle.vg_inline.specs.Kept.{keeping};
ghost use Rattle.vg_inline.specs.Context.{aliases_by, bodies_by};
ghost use Rattle.vg_inline.specs.InPlace.{excesses};
ghost use Rattle.vg_names.specs.Cycle.{cycles};
ghost use Rattle.vg_inline.specs.Rules.{IsAccepted, IsFolded, Breaks, breach_of};
ghost use Rattle.vg_rule.specs.declared.breach.Breach.{Breach as TheBreach};
ghost use Rattle.vg_rule.specs.Fault.{Tells, told_by};

use sqlite_items::Items;
use std::alloc::{AllocError, Global};
use vg_ast::{Desc, Item};
use vg_inline::{
    Context, Declared, Kept, Plain, counts, first_excess, work_out_aliases, work_out_bodies,
};
use vg_names::{Order, Table, order_of};
use vg_resolve::{first_duplicate, first_unknown};
use vg_rule::DescFault;
use vg_whole::{Worth, first_overflow, worths};

/// An order of what is put in place of its name, or the place of the name of the first that uses itself.
fn order(alloc: Global, d: &Desc) -> Result<Result<Items<usize>, usize>, AllocError>
    requires distinct { duplicates d.now ≡ [] }
    ensures sorted { IfOk result (λ found. IfOk found (IsOrder d.now.items)) }
    ensures acyclic { IfOk result (λ found. IfOk found (λ _. first_of (cycles d.now.items) ≡ None)) }
    ensures cyclic { IfOk result (λ found. IfErr found (λ at. first_of (cycles d.now.items) ≡ Some at)) }
{
    match order_of(alloc, d)? {
        Order::Sorted(order) => Ok(Ok(order)),
        Order::Cyclic { at } => Ok(Err(at)),
    }
}

/// The place of the first operator that leaves the whole numbers.
fn overflow(d: &Desc, table: &Table, worths: &[Worth]) -> Option<usize>
    requires table { table.now.items.now ≡ d.now.items }
    requires constants { constants_by d.now.items worths.now ≡ constants_of d.now.items }
    ensures { result ≡ first_of (overflows d.now (constants_of d.now.items)) }
{
    first_overflow(d, table, worths)
}

/// The place of the name of the first instruction that has too many nodes.
fn excess(
    alloc: Global,
    d: &Desc,
    table: &Table,
    worths: &[Worth],
    aliases: &[Declared],
    bodies: &[Option<Kept>],
) -> Result<Option<usize>, AllocError>
    requires table { table.now.items.now ≡ d.now.items }
    requires constants { constants_by d.now.items worths.now ≡ constants_of d.now.items }
    requires aliases { aliases_by d.now.items aliases.now ≡ aliases_of d.now.items (constants_of d.now.items) }
    requires bodies { bodies_by d.now.items bodies.now ≡ bodies_of keeping d.now.items (constants_of d.now.items) (aliases_of d.now.items (constants_of d.now.items)) }
    ensures { IfOk result (λ found. found ≡ first_of (excesses d.now.items)) }
{
    let context = Context {
        table,
        worths,
        aliases,
        bodies,
        keep: counts(),
        parameters: &[],
    };
    first_excess(alloc, &context)
}

/// What is known of the items of a description, where it keeps the rules. They are asked in their order.
fn known(
    alloc: Global,
    d: &Desc,
) -> Result<
    (
        Items<Worth>,
        Items<Declared>,
        Items<Option<Kept>>,
        Items<usize>,
    ),
    DescFault,
>
    ensures accepted { IfOk result (λ _. IsAccepted d.now) }
    ensures constants { IfOk result (λ it. constants_by d.now.items it.0 ≡ constants_of d.now.items) }
    ensures aliases { IfOk result (λ it. aliases_by d.now.items it.1 ≡ aliases_of d.now.items (constants_of d.now.items)) }
    ensures bodies { IfOk result (λ it. bodies_by d.now.items it.2 ≡ bodies_of keeping d.now.items (constants_of d.now.items) (aliases_of d.now.items (constants_of d.now.items))) }
    ensures order { IfOk result (λ it. IsOrder d.now.items it.3) }
    ensures fault { IfErr result (λ f. Tells (breach_of d.now) f) }
{
    if let Some(at) = first_duplicate(alloc, d)? {
        return Err(DescFault::Duplicate { at });
    }
    if let Some(at) = first_unknown(alloc, d)? {
        return Err(DescFault::Unknown { at });
    }
    let order = match order(alloc, d)? {
        Ok(order) => order,
        Err(at) => return Err(DescFault::Cyclic { at }),
    };
    let table = Table::new(alloc, d.items.as_slice())?;
    let worths = worths(alloc, d, &table, order.as_slice())?;
    if let Some(at) = overflow(d, &table, worths.as_slice()) {
        return Err(DescFault::Overflow { at });
    }
    let aliases = work_out_aliases(alloc, d, &table, order.as_slice(), worths.as_slice())?;
    let bodies = work_out_bodies(
        alloc,
        d,
        &table,
        order.as_slice(),
        worths.as_slice(),
        aliases.as_slice(),
    )?;
    let excess = excess(
        alloc,
        d,
        &table,
        worths.as_slice(),
        aliases.as_slice(),
        bodies.as_slice(),
    )?;
    if let Some(at) = excess {
        return Err(DescFault::Limit { at });
    }
    Ok((worths, aliases, bodies, order))
}

/// Folds a description, or tells the first rule of names, constants and sizes that it breaks.
pub fn fold(alloc: Global, d: Desc) -> Result<Plain, DescFault>
    // What is answered is so.
    ensures plain { IfOk result (λ plain. IsFolded d plain) }
    ensures fault { IfErr result (λ f. Tells (breach_of d) f) }

    // A description that keeps the rules is folded, and one that breaks a rule is refused by it, unless memory runs out.
    ensures accepts { IsAccepted d → IfErr result (λ f. f ≡ DescFault.OutOfMemory) }
    ensures refuses { (breach : TheBreach) → Breaks d breach
        → IsErrAnd result (λ f. (f ≡ DescFault.OutOfMemory) ⊎ (told_by f ≡ Some breach)) }
{
    let (worths, aliases, bodies, order) = known(alloc, &d)?;
    Ok(Plain {
        description: d,
        worths,
        aliases,
        bodies,
        order,
    })
}
