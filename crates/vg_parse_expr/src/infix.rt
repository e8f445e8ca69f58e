ghost use Rattle.std.specs.Prelude.{◌≡◌};
ghost use Rattle.vg_ast.specs.Operator.{operator_level, left_level, right_level};
ghost use Rattle.vg_parse_expr.specs.Reading.{sign_infix, kind_infix, infix_level, infix_left_level, taken};

use crate::operand::{CAST_LEVEL, SLICE_LEVEL};
use vg_ast::BinaryOperator;
use vg_tok::{Kind, Sign, Word};

/// What an expression goes on with behind its first operand.
#[derive(Clone, Copy, Debug, PartialEq, Eq)]
pub enum Infix {
    Operator(BinaryOperator),
    Cast,
    Slice,
}

pub(crate) fn operator_level(operator: BinaryOperator) -> u8
    ensures { result ≡ operator_level operator }
{
    match operator {
        BinaryOperator::Or => 1,
        BinaryOperator::Xor => 2,
        BinaryOperator::And => 3,
        BinaryOperator::Equal | BinaryOperator::NotEqual => 4,
        BinaryOperator::Less
        | BinaryOperator::LessEqual
        | BinaryOperator::Greater
        | BinaryOperator::GreaterEqual => 5,
        BinaryOperator::ShiftLeft | BinaryOperator::ShiftRight => 6,
        BinaryOperator::Add | BinaryOperator::Subtract => 7,
        BinaryOperator::Multiply
        | BinaryOperator::MultiplyLong
        | BinaryOperator::Divide
        | BinaryOperator::Remainder => 8,
    }
}

/// The least level of a left operand: the operator's own, as it groups from the left, and one more where it isn't
/// repeated.
fn left_level(operator: BinaryOperator) -> u8
    ensures { result ≡ left_level operator }
{
    match operator {
        BinaryOperator::Equal | BinaryOperator::NotEqual => 5,
        BinaryOperator::Less
        | BinaryOperator::LessEqual
        | BinaryOperator::Greater
        | BinaryOperator::GreaterEqual => 6,
        other => operator_level(other),
    }
}

/// The least level of a right operand.
pub(crate) fn right_level(operator: BinaryOperator) -> u8
    ensures { result ≡ right_level operator }
{
    operator_level(operator) + 1
}

fn sign_infix(sign: Sign) -> Option<Infix>
    ensures { result ≡ sign_infix sign }
{
    match sign {
        Sign::Bar => Some(Infix::Operator(BinaryOperator::Or)),
        Sign::Caret => Some(Infix::Operator(BinaryOperator::Xor)),
        Sign::Ampersand => Some(Infix::Operator(BinaryOperator::And)),
        Sign::Equal => Some(Infix::Operator(BinaryOperator::Equal)),
        Sign::BangEqual => Some(Infix::Operator(BinaryOperator::NotEqual)),
        Sign::Less => Some(Infix::Operator(BinaryOperator::Less)),
        Sign::LessEqual => Some(Infix::Operator(BinaryOperator::LessEqual)),
        Sign::Greater => Some(Infix::Operator(BinaryOperator::Greater)),
        Sign::GreaterEqual => Some(Infix::Operator(BinaryOperator::GreaterEqual)),
        Sign::LessLess => Some(Infix::Operator(BinaryOperator::ShiftLeft)),
        Sign::GreaterGreater => Some(Infix::Operator(BinaryOperator::ShiftRight)),
        Sign::Plus => Some(Infix::Operator(BinaryOperator::Add)),
        Sign::Minus => Some(Infix::Operator(BinaryOperator::Subtract)),
        Sign::Star => Some(Infix::Operator(BinaryOperator::Multiply)),
        Sign::StarHash => Some(Infix::Operator(BinaryOperator::MultiplyLong)),
        Sign::Slash => Some(Infix::Operator(BinaryOperator::Divide)),
        Sign::Percent => Some(Infix::Operator(BinaryOperator::Remainder)),
        Sign::OpenBracket => Some(Infix::Slice),
        _ => None,
    }
}

pub(crate) fn kind_infix(kind: &Kind) -> Option<Infix>
    ensures { result ≡ kind_infix kind.now }
{
    match kind {
        Kind::Sign(sign) => sign_infix(*sign),
        Kind::Word(Word::As) => Some(Infix::Cast),
        _ => None,
    }
}

impl Infix {
    /// The level of the whole.
    fn level(self) -> u8
        ensures { result ≡ infix_level self }
    {
        match self {
            Infix::Operator(operator) => operator_level(operator),
            Infix::Cast => CAST_LEVEL,
            Infix::Slice => SLICE_LEVEL,
        }
    }

    /// The least level of what stands at the left.
    fn left_level(self) -> u8
        ensures { result ≡ infix_left_level self }
    {
        match self {
            Infix::Operator(operator) => left_level(operator),
            Infix::Cast => CAST_LEVEL,
            Infix::Slice => SLICE_LEVEL,
        }
    }
}

/// What an operand at the left goes on with, in an expression of at least this level.
pub(crate) fn taken(least: u8, left: u8, next: Option<Infix>) -> Option<Infix>
    ensures { result ≡ taken least left next }
{
    let infix = next?;
    if least <= infix.level() && infix.left_level() <= left {
        Some(infix)
    } else {
        None
    }
}
