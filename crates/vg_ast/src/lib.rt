//! The trees of a processor description.
//!
//! In goes nothing: the crate has the types of the trees, and the definitions of the grammar that a reader is held to.
//! [`Desc`] is a whole description: the instruction set part with its [`Item`]s, and where they stand the application
//! binary interface ([`Abi`]) and the micro architecture ([`Micro`]). Behaviours are [`Statement`]s over [`Expr`]essions,
//! whose types are [`TypeExpr`]s. Each tree has the place of its first token, or of what a fault in it is told at, as an
//! offset in bytes from the start of the text; signs and reserved words are gone.
//!
//! The grammar stands in `specs/`: concrete trees, in which each token of the text has its place (`Concrete`,
//! `ConcreteItem`), the tokens that each spells (`Spelling`, `SpellingItem`), which of them are grouped as the levels of
//! operators want it and are no deeper than 64 (`Grouping`, `Depth`, `Grammar`), and the tree that each stands for
//! (`Tree`, `TreeItem`). `Piece` cuts a text into the pieces by which the place is told where it leaves the grammar.
//!
//! An expression of a description, as a tree: `a + 2` is
//! `Binary { operator: Add, at: 2, left: Name(a at 0), right: Number { value: 2, at: 4 } }`.
#![tactic(auto)]

mod abi;
mod act;
mod desc;
mod expr;
mod field;
mod fix;
mod goal;
mod item;
mod micro;
mod micro_item;
mod name;
mod operator;
mod parameter;
mod part;
mod range;
mod register;
mod role;
mod start;
mod statement;
mod type_expr;

pub use abi::Abi;
pub use act::Act;
pub use desc::Desc;
pub use expr::Expr;
pub use field::Field;
pub use fix::Fix;
pub use goal::Goal;
pub use item::Item;
pub use micro::Micro;
pub use micro_item::MicroItem;
pub use name::Name;
pub use operator::{BinaryOperator, UnaryOperator};
pub use parameter::Parameter;
pub use part::{NumberFormat, Part};
pub use range::Range;
pub use register::Register;
pub use role::Role;
pub use start::start_of;
pub use statement::Statement;
pub use type_expr::{BitsKind, TypeExpr};
