//! What the constants of a description are worth, and the first operator in it that leaves the whole numbers.
//!
//! In goes a description in which nothing is defined twice, with the table of its names and an order of its constants.
//! Out comes the [`Worth`] of each item: that of a constant is a whole number; broken, where an operator in it leaves 0 to
//! 2^128 - 1 or divides by 0; or typed, where it is no whole number. Then comes the place of the first operator of the
//! description, in the order of the text, that leaves the whole numbers, as an offset in bytes into the text.
//!
//! `+ - * / %` on two whole numbers are computed exactly. An operator over a broken operand is broken and isn't judged
//! itself. Parentheses keep a worth, and a `let` binds one; all else has a type. An inner name hides an item: that of a
//! `let`, a parameter or a field, of which the last two have types.
//!
//! The theorem: [`worths`] gives the one list of `AreWorths` in `specs/Worths.antt`, in which each constant is what its
//! expression is worth, unless memory runs out; [`first_overflow`] answers the first of `overflows` of
//! `specs/Overflow.antt`; and where there is an order, only one worth of each name is right ([`only_worths`]).
//!
//! Each constant is worked out once, behind all that it uses, so a chain of constants may be as long as the text. A name
//! costs a look-up in a hash table and as many steps as `let`s enclose it. The recursion is as deep as the trees.
//!
//! Of `constant a = b - 2` and `constant b = 1` the worths are broken and 1, and the place is that of the `-`.
#![tactic(auto)]

mod bindings;
mod judgement;
mod judging;
mod operator;
mod overflow;
mod overflow_expression;
mod overflow_item;
mod overflow_part;
mod overflow_statement;
mod working;
mod worth;

pub use operator::worth_of_binary;
pub use overflow::first_overflow;
pub use working::{constants_are_worked, worths};
pub use worth::Worth;
