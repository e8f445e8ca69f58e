//! The grammar of textual LLVM IR, and the reader of its types.
//!
//! The grammar is a set of definitions in `specs/`. A module's text is spelled by a concrete tree (`Concrete`,
//! `ConcreteInstruction`, `ConcreteModule`): a line says what each alternative spells (`Spelling`, `SpellingInstruction`,
//! `SpellingModule`), one which trees are of the grammar (`Grammar` and the two like it), and one which part of a
//! [`vg_ir::Module`] it stands for (`Tree` and the two like it). `ModuleText` says which texts are modules, and where a text
//! that is none leaves the grammar; `Named` says which fault such a text has.
//!
//! In code there are the types so far. In go the lexemes of a text from some place on; [`type_at`] gives the type that they
//! begin with and the lexemes behind it, or the place where they leave the grammar and what was wanted there.
//!
//! The theorem: `type_at` is equal to a function on lists (`specs/ReadingType.antt`), of which [`exact_types`] says: what is
//! read is a type of the grammar that the lexemes in front spell; each type of the grammar is read, where it ends; and
//! where a type is refused, some type begins with the lexemes in front, and none with the next one too.
//!
//! **Limits.** At most 1,000 brackets of a type stand in one another; for more there is no memory. The other parts of a
//! module are defined and not yet read.
//!
//! ```text
//! let found = vg_irlex::lexemes(alloc, b"[4 x { i32, ptr }] undef")?;
//! let (ty, rest) = type_at(alloc, wanted, text, found.as_slice())?;
//! // an array of four structures, with the places of `i32` and `ptr`; `undef` is left
//! ```
#![tactic(auto)]

mod laws;
mod name;
mod number;
mod part;
mod role;
mod stop;
mod table;
mod taking;
#[cfg(test)]
mod tests;
mod text;
mod types;
mod words;

pub use laws::exact_types;
pub use name::{bare_bytes, name_of};
pub use number::{exact_value, kept_value};
pub use part::Part;
pub use role::{Role, Wanted};
pub use stop::Stop;
pub use table::{entry_of, is_one_of};
pub use taking::{fixed_at, separator_at};
pub use text::{are_digits, is_bare_name, is_global, is_local, is_number, is_quoted, is_word_name};
pub use types::type_at;
pub use words::integer_width;
