//! What stands in place of the names of a description: constants, `let`, functions and aliases.
//!
//! In goes a description in which nothing is defined twice, with the table of its names, an order in which each item stands
//! behind all that it uses, and what its constants are worth. Out comes what its aliases stand for ([`work_out_aliases`]),
//! how many nodes the bodies of its functions have ([`work_out_bodies`]), the place of the name of the first instruction that
//! has more than 4,096 nodes ([`first_excess`]), and what the instructions of a folded description do, one at a time
//! ([`make_bodies`], [`behaviour`]), unless memory ends.
//!
//! An expression with everything in place is a [`Tree`]: a node with a [`Head`] and parts; a statement is an [`Effect`]. A
//! whole number is one node, a name has none of its own, and an argument takes the type of its parameter. Trees have the
//! places that are printed and no others: an access and an index have that of the name of the memory or file, and that of
//! the first token of the address or index; an assignment that of its goal's name and of its value; an `if` statement that of
//! its condition. So what stands in place of a name is a plain copy.
//!
//! The theorem: `specs/Inline.antt` and `specs/Behaviour.antt` say what stands in place of an expression, of a statement and
//! of an instruction (`behaviour_of` of `specs/InPlace.antt`), and `specs/Size.antt` how many nodes it has. Constants,
//! aliases and functions are worked out by the one law of their order: `known_of` of a description is a function of it.
//! The same definitions with `specs/Kept.antt` in place of trees say what is kept, by a [`Keep`]: the trees of up to so many
//! nodes, or only how many nodes these have and which parameters. Each is a picture of the trees (`proofs/Picture.antt`), so
//! what is kept of an instruction is what it does, or how many nodes it has, unless these are too many.
//!
//! No tree is made to tell whether a behaviour has too many nodes: a body is the number of its nodes and the list of its
//! parameters, and a call adds those of the arguments in place of these. Trees are made behind that, of instructions and of the
//! bodies of functions, and none that has more nodes than the greatest instruction. A body is counted with its arguments before
//! it is made, and nothing is made behind parts that are too many. Each body is worked out once. The recursion is as deep as
//! the trees.
//!
//! With `function twice(a : Bits<8>) -> Bits<8> = a + a`, in place of `twice(X(1))` stands `X(1) + X(1)`, of five nodes.
#![tactic(auto)]

mod action;
mod aliases;
mod behaviours;
mod bindings;
mod bodies;
mod calling;
mod calls;
mod context;
mod copying;
mod declared;
mod effect;
mod find;
mod found;
mod head;
mod inlining;
mod instructions;
mod keep;
mod keeping;
mod kept;
mod names;
mod number;
mod parameter;
mod plain;
mod schedule;
mod stating;
mod tree;
mod value;
mod whole;

pub use aliases::work_out_aliases;
pub use behaviours::{Bodies, behaviour, make_bodies};
pub use bodies::work_out_bodies;
pub use context::Context;
pub use declared::Declared;
pub use effect::{Effect, Target};
pub use head::Head;
pub use instructions::{behaviour_in, first_excess};
pub use keep::{Keep, counts};
pub use kept::Kept;
pub use number::worth_of;
pub use plain::Plain;
pub use tree::Tree;
pub use value::Value;
pub use whole::declared_type;
