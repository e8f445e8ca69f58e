ghost use Rattle.std.specs.Prelude.{◌≡◌, ◌+◌, ◌*◌};
ghost use Rattle.vg_ast.specs.declared.operator.BinaryOperator.TheVariants.{Subtract};
ghost use Rattle.vg_names.specs.First.{first_of};
ghost use Rattle.vg_whole.specs.Whole.{below_limit, quotient as quotient_of, remainder as remainder_of, computed as computed_of, valueless as valueless_of, binary_whole, operator_places};

use crate::Worth;
use vg_ast::BinaryOperator;

fn sum(left: u128, right: u128) -> Worth
    ensures { result ≡ below_limit (left + right) }
{
    match left.checked_add(right) {
        None => Worth::NoValue,
        Some(number) => Worth::Whole(number),
    }
}

fn difference(left: u128, right: u128) -> Worth
    ensures { result ≡ computed_of Subtract left right }
{
    if right <= left {
        Worth::Whole(left - right)
    } else {
        Worth::NoValue
    }
}

fn product(left: u128, right: u128) -> Worth
    ensures { result ≡ below_limit (left * right) }
{
    match left.checked_mul(right) {
        None => Worth::NoValue,
        Some(number) => Worth::Whole(number),
    }
}

fn quotient(left: u128, divisor: u128) -> Worth
    ensures { result ≡ quotient_of left divisor }
{
    if divisor == 0 {
        Worth::NoValue
    } else {
        Worth::Whole(left / divisor)
    }
}

fn remainder(left: u128, modulus: u128) -> Worth
    ensures { result ≡ remainder_of left modulus }
{
    if modulus == 0 {
        Worth::NoValue
    } else {
        Worth::Whole(left % modulus)
    }
}

/// What an operator makes of two whole numbers.
fn computed(operator: BinaryOperator, left: u128, right: u128) -> Worth
    ensures { result ≡ computed_of operator left right }
{
    match operator {
        BinaryOperator::Add => sum(left, right),
        BinaryOperator::Subtract => difference(left, right),
        BinaryOperator::Multiply => product(left, right),
        BinaryOperator::Divide => quotient(left, right),
        BinaryOperator::Remainder => remainder(left, right),
        _ => Worth::Typed,
    }
}

/// What an operator makes of two whole numbers of which one has no value.
fn valueless(operator: BinaryOperator) -> Worth
    ensures { result ≡ valueless_of operator }
{
    match operator {
        BinaryOperator::Add
        | BinaryOperator::Subtract
        | BinaryOperator::Multiply
        | BinaryOperator::Divide
        | BinaryOperator::Remainder => Worth::NoValue,
        _ => Worth::Typed,
    }
}

/// What an operator makes of its operands.
pub fn worth_of_binary(operator: BinaryOperator, left: Worth, right: Worth) -> Worth
    ensures { result ≡ binary_whole operator left right }
{
    match (left, right) {
        (Worth::Whole(left), Worth::Whole(right)) => computed(operator, left, right),
        (Worth::Typed, _) | (_, Worth::Typed) => Worth::Typed,
        _ => valueless(operator),
    }
}

/// The place of an operator, where it leaves the whole numbers.
pub fn place_of_binary(
    operator: BinaryOperator,
    at: usize,
    left: Worth,
    right: Worth,
) -> Option<usize>
    ensures { result ≡ first_of (operator_places operator at left right) }
{
    match (left, right) {
        (Worth::Whole(left), Worth::Whole(right)) => match computed(operator, left, right) {
            Worth::NoValue => Some(at),
            _ => None,
        },
        _ => None,
    }
}
