//! Registers of files and memory reads, over what stands for the index or the address.

ghost use Rattle.std.specs.Prelude.{◌≡◌, ◌++◌, ◌∷◌, [], IfOk};
ghost use Rattle.vg_type.specs.ValueType.{whole_or as whole_or_of};
ghost use Rattle.vg_type.specs.Operator.{bytes_type as type_of_bytes};
ghost use Rattle.vg_type.specs.declared.sort.Sort.TheVariants as sorts;
ghost use Rattle.vg_isa.specs.declared.expr.Expr.TheVariants as exprs;
ghost use Rattle.vg_tree.specs.Number.{value_or as value_of};
ghost use Rattle.vg_tree.specs.Made.{access_made, indexed_made, reading_of as reading_with, tree_where};

use crate::constants::{no_tree, placed, typed};
use crate::copying::copy;
use crate::made::Made;
use crate::number::value_or;
use crate::reading::Reading;
use crate::resource::Resource;
use sqlite_items::{Boxed, Items};
use std::alloc::{AllocError, Global};
use vg_isa::Expr;
use vg_type::{Sort, ValueType, bytes_type, whole_or};
use vg_whole::Worth;

/// A register of a file.
pub(crate) fn indexed(alloc: Global, file: Resource, index: Made) -> Result<Made, AllocError>
    ensures { IfOk result (λ it. it ≡ indexed_made file index) }
{
    let at = placed(alloc, file.index, index.sort, index.tree)?;
    let tree = Boxed::new(alloc, Expr::Reg(file.id, Some(at)))?;
    typed(alloc, file.gives, tree, index.readings)
}

/// A memory read, where its size is one.
#[tactic(auto, using(crate::proofs::MadeLemmas::size_within))]
fn access_tree(alloc: Global, size: Worth, address: Boxed<Expr>) -> Result<Boxed<Expr>, AllocError>
    ensures { IfOk result (λ it. tree_where (type_of_bytes (whole_or_of size sorts.Untyped)) it ≡ tree_where (type_of_bytes (whole_or_of size sorts.Untyped)) (exprs.Mem address (value_of size))) }
{
    match size {
        Worth::Whole(bytes) => {
            if bytes <= 16 {
                Boxed::new(alloc, Expr::Mem(address, bytes as u8))
            } else {
                no_tree(alloc)
            }
        }
        Worth::NoValue | Worth::Typed => no_tree(alloc),
    }
}

/// The reads in an address, and behind them the read of it.
fn with_reading(
    readings: Items<Reading>,
    at: usize,
    size: Worth,
    address_at: usize,
    address: Boxed<Expr>,
) -> Result<Items<Reading>, AllocError>
    ensures { IfOk result (λ it. it ≡ readings ++ reading_with at size address_at address ∷ []) }
{
    let mut longer = readings;
    longer.push(Reading {
        at,
        address_at,
        address,
        bytes: value_or(size),
    })?;
    Ok(longer)
}

/// A memory read, of an address of a type.
pub(crate) fn access(
    alloc: Global,
    has: Option<ValueType>,
    at: usize,
    size: Worth,
    address_at: usize,
    address: Made,
) -> Result<Made, AllocError>
    ensures { IfOk result (λ it. it ≡ access_made has at size address_at address) }
{
    let gives = bytes_type(whole_or(size, Sort::Untyped));
    let place = placed(alloc, has, address.sort, address.tree)?;
    let copy = copy(alloc, place.get())?;
    let tree = access_tree(alloc, size, place)?;
    let readings = with_reading(address.readings, at, size, address_at, copy)?;
    typed(alloc, gives, tree, readings)
}
