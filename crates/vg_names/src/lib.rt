//! The names of a description, and the order in which its constants, aliases and functions can be worked out.
//!
//! In goes a description as its trees. Out comes a [`Table`], in which the names of its items are looked up; the inner
//! names at a place, which hide those of items ([`Inner`]); and an order of its constants, aliases and functions in which
//! each stands once, behind all that it uses, or the place of the first of them, in the order of the text, that uses itself,
//! directly or through others. An item uses a name where its value, its type or its body has it and no inner name hides it:
//! a parameter, or a name that `let` binds.
//!
//! The theorem is the clause of [`order_of`]: of a description in which nothing is defined twice its [`Order`] is such an
//! order of all of them, or the place of the first item that uses itself, by the definitions in `specs/` (`Uses`, `Cyclic`,
//! `Answer`). `specs/` also says which names are defined twice (`Duplicate`) and which are unknown (`Unknown`); the rules
//! on these are asked by vg_resolve.
//!
//! Names are looked up in hash tables, which hold the characters of the trees and copy none. Of enclosing `let`s each is
//! looked at for a name, so a name costs as many steps as `let`s enclose it. Each item is a node of a graph, whose uses are
//! the numbers of the items that its names stand for. A search goes down the uses and keeps the nodes that it came through
//! in a list, so a chain of items may be as long as the text. Where it comes back to one of them, that node uses itself, and
//! it or a node before it is the answer. The order takes time about linear in the text; to tell a circle takes up to the
//! square of it. Expressions are at most 64 deep, and only they are followed by recursion. No memory is the one error.
//!
//! Of `constant a = b`, `constant b = 1` the order is b, a: the numbers 1 and 0. Of `constant a = a` the answer is the
//! place of the name a.
#![tactic(auto)]

mod circle;
mod graph;
mod inner;
mod item_scope;
mod mark;
mod meaning;
mod ordering;
mod scope;
mod search;
mod sorting;
mod step;
mod table;
mod uses;

pub use inner::{Inner, is_inner};
pub use meaning::Meaning;
pub use ordering::{Order, order_of};
pub use scope::Scope;
pub use table::Table;
