//! The instructions and their encodings.

ghost use Rattle.std.specs.Prelude.{◌≡◌, ◌+◌, ◌∷◌, [], ◌<◌, ◌≤◌, length, IfOk, IfSome, IsTrue};
ghost use Rattle.std.specs.List.{list_all, list_any};
ghost use Rattle.vg_form.specs.Form.{fits_fields};
ghost use Rattle.vg_form.specs.Description.{effect_step, encoding_of, fixed, instruction_of, is_ascii, is_rd, is_target, number_below, numbers_of, pair_of, pairs_behind, pairs_of, same_encoding, value_in, value_of, value_written};
ghost use Rattle.vg_form.specs.Finding.{are_fitting, FindsSo, SeesSo};
ghost use Rattle.vg_form.specs.Given.{all_doing, doing, effect_in, values_in};

use crate::declaring::place_of;
use crate::fault::FormFault;
use crate::form::{Behaviour, Pair};
use crate::naming::{is_ascii, is_named, text_of};
use crate::remaining::Remaining;
use crate::shape::{Operand, Shape};
use crate::shaping::shape;
use sqlite_items::Items;
use std::alloc::{AllocError, Global};
use vg_ast::{Fix, Item, Name};
use vg_inline::{Context, Effect, Target, Tree, behaviour_in, worth_of};
use vg_whole::Worth;

/// A description has at most so many pairs of an instruction and its encoding.
const MOST_PAIRS: usize = 512;

fn value_of(shape: Shape) -> Option<Behaviour>
    ensures { result ≡ value_of shape }
{
    match shape {
        Shape::Value(behaviour) => Some(behaviour),
        _ => None,
    }
}

fn is_rd(shape: Shape) -> bool
    ensures { result ≡ is_rd shape }
{
    match shape {
        Shape::Field(Operand::Rd) => true,
        _ => false,
    }
}

/// Whether a target is `X(rd)`, where the register file is the item of this number.
fn is_target(target: Target, parts: &[Tree], file: usize) -> bool
    ensures { result ≡ is_target file target parts.now }
{
    match (target, parts) {
        (Target::Indexed { item, .. }, [index]) => item == file && is_rd(shape(index, file)),
        _ => false,
    }
}

/// What is written to `X(rd)`.
fn value_written(effect: &Effect, file: usize) -> Option<Behaviour>
    ensures { result ≡ value_written file effect.now }
{
    match effect {
        Effect::Assign {
            target,
            parts,
            value,
            ..
        } => {
            if is_target(*target, parts.as_slice(), file) {
                value_of(shape(value, file))
            } else {
                None
            }
        }
        Effect::Block { .. } | Effect::If { .. } => None,
    }
}

fn behaviour(effect: &Option<Effect>, file: usize) -> Option<Behaviour>
    ensures { result ≡ value_in file effect.now }
{
    match effect {
        None => None,
        Some(effect) => value_written(effect, file),
    }
}

/// What an instruction does; it is made for this alone.
fn made(
    alloc: Global,
    item: &Item,
    file: usize,
    context: &Context,
) -> Result<Option<Behaviour>, AllocError>
    ensures { IfOk result (λ made. made ≡ value_in file (effect_in context.now item.now)) }
{
    let effect = behaviour_in(alloc, item, context)?;
    Ok(behaviour(&effect, file))
}

/// The name of an instruction, and what it does.
fn instruction<'a>(
    alloc: Global,
    item: &'a Item,
    file: usize,
    context: &Context,
) -> Result<Option<(&'a Name, Behaviour)>, AllocError>
    ensures so { IfOk result (λ found. SeesSo (λ x. (x.0.now, x.1)) found (instruction_of file item.now (effect_in context.now item.now))) }
    ensures ascii { IfOk result (λ found. IfSome found (λ x. IsTrue (is_ascii x.0.now.text))) }
{
    match item {
        Item::Instruction { name, format, .. } => {
            if !is_ascii(name.text.as_slice()) || !is_named(format.text.as_slice(), b"R") {
                return Ok(None);
            }
            match made(alloc, item, file, context)? {
                None => Ok(None),
                Some(behaviour) => Ok(Some((name, behaviour))),
            }
        }
        _ => Ok(None),
    }
}

fn number_below(limit: u8, worth: Worth) -> Option<u8>
    ensures number { result ≡ number_below limit worth }
    ensures below { IfSome result (λ n. n < limit) }
{
    match worth {
        Worth::Whole(n) => {
            if n < u128::from(limit) {
                Some(n as u8)
            } else {
                None
            }
        }
        Worth::NoValue | Worth::Typed => None,
    }
}

/// The number that a field of this name is fixed to, where it is below the limit.
fn fixed(name: &[u8], limit: u8, fix: &Fix, context: &Context) -> Option<u8>
    ensures number { result ≡ fixed (values_in context.now) name.now limit fix.now }
    ensures below { IfSome result (λ n. n < limit) }
{
    if is_named(fix.name.text.as_slice(), name) {
        number_below(limit, worth_of(fix.value.get(), context))
    } else {
        None
    }
}

/// The numbers of `f7`, `f3` and `op`.
fn numbers(fixes: &[Fix], context: &Context) -> Option<(u8, u8, u8)>
    ensures numbers { result ≡ numbers_of (values_in context.now) fixes.now }
    ensures fit { IfSome result (λ numbers. IsTrue (are_fitting numbers)) }
{
    match fixes {
        [f7, f3, op] => {
            let f7 = fixed(b"f7", 128, f7, context)?;
            let f3 = fixed(b"f3", 8, f3, context)?;
            let op = fixed(b"op", 128, op, context)?;
            Some((f7, f3, op))
        }
        _ => None,
    }
}

/// The numbers of the encoding of this instruction.
fn encoding(instruction: &Name, item: &Item, context: &Context) -> Option<(u8, u8, u8)>
    ensures numbers { result ≡ encoding_of (values_in context.now) instruction.now item.now }
    ensures fit { IfSome result (λ numbers. IsTrue (are_fitting numbers)) }
{
    match item {
        Item::Encoding { name, fixes, .. } => {
            if instruction.text.as_slice() == name.text.as_slice() {
                numbers(fixes.as_slice(), context)
            } else {
                None
            }
        }
        _ => None,
    }
}

fn same_encoding(a: &Pair, b: &Pair) -> bool
    ensures { result ≡ same_encoding a.now b.now }
{
    a.f7 == b.f7 && a.f3 == b.f3 && a.op == b.op
}

fn has_encoding(pairs: &[Pair], pair: &Pair) -> bool
    ensures { result ≡ list_any (same_encoding pair.now) pairs.now }
{
    pairs.iter().any(|other| same_encoding(pair, other))
}

/// An instruction and its encoding, where these pairs stand in front.
fn pair(
    alloc: Global,
    front: &[Pair],
    first: &Item,
    second: &Item,
    file: usize,
    context: &Context,
) -> Result<Pair, FormFault>
    ensures so { FindsSo (λ pair. pair) result (pair_of file (values_in context.now) front.now (doing context.now first.now) (doing context.now second.now ∷ [])) }
    ensures fit { IfOk result (λ pair. IsTrue (fits_fields pair)) }
{
    let Some((name, behaviour)) = instruction(alloc, first, file, context)? else {
        return Err(FormFault::Unlike {
            at: place_of(first),
        });
    };
    let Some((f7, f3, op)) = encoding(name, second, context) else {
        return Err(FormFault::Unlike {
            at: place_of(second),
        });
    };
    let pair = Pair {
        name: text_of(alloc, name.text.as_slice())?,
        behaviour,
        f7,
        f3,
        op,
    };
    if has_encoding(front, &pair) {
        return Err(FormFault::Unlike { at: name.at });
    }
    Ok(pair)
}

/// The pairs up to the end, where these stand in front and so many may follow.
#[tactic(auto, using(crate::proofs::PairLemmas::pairs_more, crate::proofs::PairLemmas::fit_more))]
fn pairs_behind(
    alloc: Global,
    room: usize,
    front: Items<Pair>,
    items: &[Remaining<'_>],
    file: usize,
    context: &Context,
) -> Result<Items<Pair>, FormFault>
    requires fit { IsTrue (list_all fits_fields front) }
    requires few { length front + room ≤ 512 }
    ensures so { FindsSo (λ pairs. pairs) result (pairs_behind file (values_in context.now) room front (all_doing context.now items.now)) }
    ensures fit { IfOk result (λ pairs. IsTrue (list_all fits_fields pairs)) }
    ensures few { IfOk result (λ pairs. length pairs ≤ 512) }
{
    let Some((first, behind)) = items.split_first() else {
        return Ok(front);
    };
    if room == 0 {
        return Err(FormFault::Unlike {
            at: place_of(first.item),
        });
    }
    let Some((second, more)) = behind.split_first() else {
        return Err(FormFault::Unlike {
            at: place_of(first.item),
        });
    };
    let pair = pair(
        alloc,
        front.as_slice(),
        first.item,
        second.item,
        file,
        context,
    )?;
    let mut pairs = front;
    pairs.push(pair)?;
    pairs_behind(alloc, room - 1, pairs, more, file, context)
}

/// One pair or more.
pub(crate) fn pairs(
    alloc: Global,
    close: usize,
    items: &[Remaining<'_>],
    file: usize,
    context: &Context,
) -> Result<Items<Pair>, FormFault>
    ensures so { FindsSo (λ pairs. pairs) result (pairs_of file (values_in context.now) close (all_doing context.now items.now)) }
    ensures fit { IfOk result (λ pairs. IsTrue (list_all fits_fields pairs)) }
    ensures few { IfOk result (λ pairs. length pairs ≤ 512) }
{
    if items.is_empty() {
        return Err(FormFault::Unlike { at: close });
    }
    pairs_behind(alloc, MOST_PAIRS, Items::new(alloc), items, file, context)
}
