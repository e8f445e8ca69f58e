//! The normal form of the graph of a behaviour.
//!
//! Two trees are alike where they differ in the order of operands that may stand in either, and in casts that change
//! nothing, alone (`Alike` of vg_graph). [`normal`] takes a graph and leaves its normal form (`IsNormal` of
//! `specs/Normal.antt`): equal nodes are one, no such cast and no slice from bit 0 is left, and operands that may stand in
//! either order stand by their numbers, the lesser first.
//!
//! **What is proved.** The trees at each root before and after are alike (`HasSameTrees`), so each root keeps its value for
//! each word in each lawful state (`KeepsValues`). Two roots are one node exactly where their trees were alike
//! (`HasOneRoot`). Without the memory for it the graph stays as it is. Laws: trees that are alike have one width and one
//! value ([`alike_trees`]); the normal form of a tree, a fold that puts operands into an order of trees, is alike to it,
//! and two typed trees are alike exactly where their normal forms are equal ([`normal_trees`], [`order_of_operands`]); in
//! a graph in normal form the trees at two nodes are alike exactly where the nodes are one ([`normal_graphs`]).
//!
//! **How.** A fresh graph is built: the nodes that the roots use are gone into from a stack, operands first, and the image
//! of each is added to the fresh graph, with its width at hand (`Growing`). A cast that changes nothing has the image of
//! its operand. Each node is gone into once, since no node uses itself: so the time is linear. A behaviour may be deep.
//!
//! **Limits.** Those of vg_graph. Nodes that no root uses are left behind.
//!
//! ```text
//! normal(alloc, &mut graph)?;     // of `X(1) + X(2)` and `X(2) + X(1)` one node is left
//! ```
#![tactic(auto)]

mod growing;
mod laws;
mod normalising;
mod visit;
mod width;

pub use laws::{alike_trees, normal_graphs, normal_trees, order_of_operands};
pub use normalising::normal;

#[cfg(test)]
mod described;
#[cfg(test)]
mod tests;
