//! The shapes of trees.

ghost use Rattle.std.specs.Prelude.{◌≡◌, nat_eq, if◌then◌else◌, map};
ghost use Rattle.vg_form.specs.Shape.{binary_shape, cast_shape, extended, field_numbered, indexed, operated, shape_of, sum};

use crate::declaring::is_bits;
use crate::form::Behaviour;
use crate::shape::{Operand, Shape};
use vg_ast::BinaryOperator;
use vg_inline::{Head, Tree};

/// The field of this number in the one format.
fn numbered(field: usize) -> Shape
    ensures { result ≡ field_numbered field }
{
    if field == 4 {
        Shape::Field(Operand::Rd)
    } else if field == 2 {
        Shape::Field(Operand::Rs1)
    } else if field == 1 {
        Shape::Field(Operand::Rs2)
    } else {
        Shape::Other
    }
}

/// What a cast of an operand is, by whether it is to `Bits<32>`.
fn extended(to_word: bool, operand: Shape) -> Shape
    ensures { result ≡ extended to_word operand }
{
    match operand {
        Shape::Field(operand) => {
            if to_word {
                Shape::Extended(operand)
            } else {
                Shape::Other
            }
        }
        _ => Shape::Other,
    }
}

fn sum(left: Shape, right: Shape) -> Shape
    ensures { result ≡ sum left right }
{
    match (left, right) {
        (Shape::Register(Operand::Rs1), Shape::Register(Operand::Rs2)) => {
            Shape::Value(Behaviour::AddRegisters)
        }
        (Shape::Register(Operand::Rs1), Shape::Extended(Operand::Rs2)) => {
            Shape::Value(Behaviour::AddField)
        }
        _ => Shape::Other,
    }
}

fn operated(operator: BinaryOperator, left: Shape, right: Shape) -> Shape
    ensures { result ≡ operated operator left right }
{
    match operator {
        BinaryOperator::Add => sum(left, right),
        _ => Shape::Other,
    }
}

/// What a tree is, as far as the form asks, where the register file is the item of this number.
#[cycle(shape)]
#[tactic(auto, using(crate::proofs::ShapeLemmas::shape_tree))]
pub(crate) fn shape(tree: &Tree, file: usize) -> Shape
    ensures { result ≡ shape_of file tree.now }
{
    match tree.head {
        Head::Whole { value: Some(value) } => Shape::Number(value),
        Head::Field { field } => numbered(field),
        Head::Indexed { item, .. } => register(tree.parts.as_slice(), item, file),
        Head::Cast { target } => cast(tree.parts.as_slice(), is_bits(32, target), file),
        Head::Binary { operator } => binary(tree.parts.as_slice(), operator, file),
        _ => Shape::Other,
    }
}

/// The register of the item of this number.
#[cycle(shape)]
fn register(arguments: &[Tree], item: usize, file: usize) -> Shape
    ensures { result ≡ if nat_eq item file then indexed (map (shape_of file) arguments.now) else Shape.Other }
{
    if item != file {
        return Shape::Other;
    }
    match arguments {
        [argument] => match shape(argument, file) {
            Shape::Field(operand) => Shape::Register(operand),
            _ => Shape::Other,
        },
        _ => Shape::Other,
    }
}

/// A cast of an operand, by whether it is to `Bits<32>`.
#[cycle(shape)]
fn cast(parts: &[Tree], to_word: bool, file: usize) -> Shape
    ensures { result ≡ cast_shape to_word (map (shape_of file) parts.now) }
{
    match parts {
        [operand] => extended(to_word, shape(operand, file)),
        _ => Shape::Other,
    }
}

#[cycle(shape)]
fn binary(parts: &[Tree], operator: BinaryOperator, file: usize) -> Shape
    ensures { result ≡ binary_shape operator (map (shape_of file) parts.now) }
{
    match parts {
        [left, right] => operated(operator, shape(left, file), shape(right, file)),
        _ => Shape::Other,
    }
}
