//! The types of a description's expressions, and the places at which the rules of types and of ranges are broken.
//!
//! In goes a description in which all names are known, with what its constants are worth and what its aliases stand
//! for ([`Setting`]). Out come the first places at which it breaks the two rules ([`first_faults`]); and what is found
//! of one expression as it is written ([`judged`]): where it begins, what it is, and the first places in it.
//!
//! An expression is a whole number, has a type ([`ValueType`]: `Bits<n>`, `UInt<n>`, `SInt<n>` with a width of 1 to
//! 128, or `Bool`), or has none ([`Sort`]). A whole number takes the type of the other operand or of its place. The
//! rule of types is broken at the first token of the smallest expression that has no type; that isn't asked of an
//! expression in which a range is broken, nor where a name in it is at fault at its declaration. `let`s, functions and
//! arguments are judged whether they are used or not, and a written type where it is written.
//!
//! The theorem: `specs/Expression.antt` gives the type of an expression and all these places, in the order of the
//! text, by one fold; `specs/Statement.antt` and `specs/Item.antt` those of statements, of declared types, of items, of
//! the binary interface and of a whole description (`wrong_widths`, `wrong_ranges`). [`judged`] finds exactly that type
//! and the first places, and [`first_faults`] exactly the first of `wrong_widths` and the first of `wrong_ranges`,
//! None where the list is empty. Neither needs memory.
//!
//! Each expression is judged once, and the size of an access that is written twice. A name costs a look-up in a hash
//! table, as many steps as `let`s, fields or parameters stand before it, and what it takes to work out the type that is
//! declared for it; a call costs that for each parameter. The recursion is as deep as expressions and statements; lists
//! are gone through by loops.
//!
//! Of `x[8..0] + 1` with `x : Bits<8>` the range of the slice is broken, at its `[`, and its type isn't asked for:
//!
//! ```
//! let setting = Setting::new(&context);
//! let found = first_faults(&description, &setting);
//! ```
#![tactic(auto)]

mod callee;
mod calling;
mod declared_types;
mod declaring;
mod describing;
mod fields;
mod finding;
mod first_places;
mod interface;
mod judgement;
mod judging;
mod looking;
mod machine;
mod names;
mod numbers;
mod operator;
mod places;
mod setting;
mod settling;
mod sort;
mod stating;
mod taking;
mod value_type;
mod written;

pub use callee::{Callee, called_by, callee_named};
pub use declaring::{address_type, is_bits, type_in, width_in};
pub use describing::{fields_in, first_faults};
pub use fields::{field_type, low_of};
pub use finding::{find, named};
pub use first_places::FirstPlaces;
pub use judgement::Judgement;
pub use judging::judged;
pub use looking::{global, item_sort};
pub use names::Names;
pub use operator::{
    binary_type, bytes_type, cast_type, choice_type, is_shift, join_type, operand_type, slice_type,
    unary_type,
};
pub use setting::Setting;
pub use sort::{Sort, common_type, sort_of_type, whole_or};
pub use value_type::{ValueType, fits, same_type, type_of, width_of};
