//! The graph of an instruction's behaviour: nodes that share what they have in common, and who uses each of them.
//!
//! A [`Node`] is an operator over the numbers of other nodes. It stands for a tree of `vg_isa`: its operator over the
//! trees at its operands (`IsTree` of `specs/Tree.antt`). Each operand of each node is an edge, and each node has a list
//! of the edges that name it, kept by `vg_list`. Some nodes are roots: they stand for the parts of an instruction, each
//! guard, index or address and value of its writes, and the guard and value of the next program counter.
//!
//! **What is proved.** Contracts see a [`Graph`] as a `GraphValue` of `specs/Graph.antt`: its nodes, for each node its
//! edges, and its roots. Each node has a tree, whose operands have the widths that their places need, so no node uses
//! itself. The edges kept for a node are exactly those that name it, each once (`AreUsers`).
//!
//! - [`Graph::of`] is the graph of an instruction: no two nodes have one operator and the same operands, and at each root
//!   stands the tree of its part of the instruction (`IsGraphOf`). So each root has the value of that tree for each word
//!   in each state (law [`values_of_trees`]).
//! - [`Graph::set_roots`] lets other nodes stand for the parts.
//! - [`Graph::add`] gives the node that is there with this operator and these operands, or puts it behind the others
//!   (`IsAdded`); all else stays, and a refusal changes nothing.
//! - [`Graph::replace_uses`] puts one node in place of another in every operand and every root (`replaced`); all else
//!   stays. Where the two have one value for a word in a state, each node keeps its value.
//! - [`Graph::value`] is the value of the tree at a node, for a word in a state, as `vg_isa` defines it, and has the tree's
//!   width (`IsWorth`).
//! - [`Graph::first_user`], [`Graph::next_user`] and [`Graph::user`] go over the edges that name a node, [`Graph::node`]
//!   and [`Graph::root`] read nodes and roots.
//!
//! `specs/Alike.antt` says when two trees are equal up to the order of operands of commuting operators and up to casts
//! that change nothing; the normal form of graphs stands on it.
//!
//! **How.** Nodes are found by a table of buckets, which grows with them, so `add` takes constant time on average.
//! `replace_uses` takes time for the users of the old node, and moves their list at once. `of` goes over the trees by a list
//! of what is still to do, so they may be deep. `value` lists the nodes that a node uses with operands first, from a
//! stack, and lets `vg_isa` evaluate each once: its operator over the values of its operands, as constants. Only
//! `empty`, `of`, `add` and `value` take memory, `value` as much as the graph has nodes.
//!
//! **Limits.** All nodes together, and all edges together, stay below 2^32; `add` asks for it. After `replace_uses` two
//! nodes may have one operator and the same operands. Nodes that nothing uses stay.
//!
//! ```text
//! let mut graph = Graph::empty(alloc, &isa)?;
//! let pc = graph.add(Node { op: Op::Pc, args: Operands::Zero })?;
//! let sum = graph.add(Node { op: Op::Binary(BinOp::Add), args: Operands::Two(pc, pc) })?;
//! graph.first_user(pc)      // the edge of the first operand of `sum`
//! ```
#![tactic(auto)]

mod behaviour;
mod building;
mod evaluation;
mod graph;
mod hashing;
mod laws;
mod node;
mod operands;
mod operator;
mod order;
mod root;
mod roots;
mod same;
mod store;
mod table;
mod task;

pub use graph::Graph;
pub use laws::values_of_trees;
pub use node::Node;
pub use operands::Operands;
pub use operator::Op;
pub use root::Root;
pub use roots::{NextRoots, Roots, WriteRoots};
