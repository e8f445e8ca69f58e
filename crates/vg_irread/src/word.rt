//! The words that are operators and values.

ghost use Rattle.std.specs.Prelude.{◌≡◌, ◌∷◌, []};
ghost use Rattle.vg_irparse.specs.Rows.{texts};
ghost use Rattle.vg_irparse.specs.Words.{entry_of, is_one_of, operator_words, cast_words, predicate_words, constant_words};
ghost use Rattle.vg_irparse.specs.Tree.{constant_values};
ghost use Rattle.vg_irread.specs.ReadingInstruction.{words_of};

use vg_ir::{BinaryOperator, CastOperator, Predicate, Value};
use vg_irparse::{entry_of, is_one_of};

const OPERATORS: [(&[u8], BinaryOperator); 13] = [
    (b"add", BinaryOperator::Add),
    (b"sub", BinaryOperator::Sub),
    (b"mul", BinaryOperator::Mul),
    (b"udiv", BinaryOperator::Udiv),
    (b"sdiv", BinaryOperator::Sdiv),
    (b"urem", BinaryOperator::Urem),
    (b"srem", BinaryOperator::Srem),
    (b"shl", BinaryOperator::Shl),
    (b"lshr", BinaryOperator::Lshr),
    (b"ashr", BinaryOperator::Ashr),
    (b"and", BinaryOperator::And),
    (b"or", BinaryOperator::Or),
    (b"xor", BinaryOperator::Xor),
];

pub(crate) fn operator_of(text: &[u8]) -> Option<BinaryOperator>
    ensures { result ≡ entry_of operator_words text.now }
{
    entry_of(&OPERATORS, text)
}

/// The words that are values.
pub(crate) fn constant_of(text: &[u8]) -> Option<Value>
    ensures { result ≡ entry_of constant_values text.now }
{
    if b"true".as_slice() == text {
        return Some(Value::True);
    }
    if b"false".as_slice() == text {
        return Some(Value::False);
    }
    if b"null".as_slice() == text {
        return Some(Value::Null);
    }
    if b"undef".as_slice() == text {
        return Some(Value::Undef);
    }
    if b"poison".as_slice() == text {
        return Some(Value::Poison);
    }
    None
}

const CONSTANTS: [&[u8]; 5] = [b"true", b"false", b"null", b"undef", b"poison"];

/// Whether a word is a value.
pub fn is_constant(text: &[u8]) -> bool
    ensures { result ≡ is_one_of constant_words text.now }
{
    is_one_of(&CONSTANTS, text)
}

const CASTS: [(&[u8], CastOperator); 6] = [
    (b"zext", CastOperator::Zext),
    (b"sext", CastOperator::Sext),
    (b"trunc", CastOperator::Trunc),
    (b"ptrtoint", CastOperator::PtrToInt),
    (b"inttoptr", CastOperator::IntToPtr),
    (b"bitcast", CastOperator::Bitcast),
];

pub(crate) fn cast_of(text: &[u8]) -> Option<CastOperator>
    ensures { result ≡ entry_of cast_words text.now }
{
    entry_of(&CASTS, text)
}

const PREDICATES: [(&[u8], Predicate); 10] = [
    (b"eq", Predicate::Eq),
    (b"ne", Predicate::Ne),
    (b"ugt", Predicate::Ugt),
    (b"uge", Predicate::Uge),
    (b"ult", Predicate::Ult),
    (b"ule", Predicate::Ule),
    (b"sgt", Predicate::Sgt),
    (b"sge", Predicate::Sge),
    (b"slt", Predicate::Slt),
    (b"sle", Predicate::Sle),
];

pub(crate) fn predicate_of(text: &[u8]) -> Option<Predicate>
    ensures { result ≡ entry_of predicate_words text.now }
{
    entry_of(&PREDICATES, text)
}

const OPERATOR_WORDS: [&[u8]; 13] = [
    b"add", b"sub", b"mul", b"udiv", b"sdiv", b"urem", b"srem", b"shl", b"lshr", b"ashr", b"and",
    b"or", b"xor",
];

/// The words of the instructions with two operands.
pub(crate) fn is_operator(text: &[u8]) -> bool
    ensures { result ≡ is_one_of (words_of operator_words) text.now }
{
    is_one_of(&OPERATOR_WORDS, text)
}

const CAST_WORDS: [&[u8]; 6] = [
    b"zext",
    b"sext",
    b"trunc",
    b"ptrtoint",
    b"inttoptr",
    b"bitcast",
];

/// The words of the casts.
pub(crate) fn is_cast(text: &[u8]) -> bool
    ensures { result ≡ is_one_of (words_of cast_words) text.now }
{
    is_one_of(&CAST_WORDS, text)
}

/// Whether a text is this word.
pub(crate) fn is_word(word: &[u8], text: &[u8]) -> bool
    ensures { result ≡ is_one_of (word.now ∷ []) text.now }
{
    word == text
}
