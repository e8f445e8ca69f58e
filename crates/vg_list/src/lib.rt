//! Many doubly linked lists of nodes in one arena, threaded by numbers.
//!
//! A [`Lists`] has nodes and lists, which go by their numbers from 0 on. Each node is in at most
//! one list. What a node stands for is the caller's: keep it in a table of its own, under the
//! node's number.
//!
//! Contracts see a `Lists` as a `NodeLists` of `specs/NodeLists.antt`: how many nodes there are,
//! and the node numbers of each list, in order. Each call is one equation on that value, so it says
//! what it does to the list that it changes and that all other lists stay. That no node stands at
//! two places (`IsDisjoint`) is kept by the type; `first` and `next` say it to their callers.
//!
//! Each call takes constant time, `splice` too, whatever the lengths of the lists. `grow` takes time
//! for the nodes and lists that it adds, and moves all links where it takes memory; growing one by
//! one costs constant time a node on average. A node takes two links and a list two. Only `new` and
//! `grow` take memory, and a `grow` that finds none changes nothing.
//!
//! Each list is a ring of links with a sentinel that stands before its first node and behind its
//! last. So a node is put in or taken out by the links around it alone, and no call looks for the
//! list of a node.
//!
//! Limits: all nodes together, and all lists together, are below 2^32. A list has no length, and a
//! node doesn't know its list.
//!
//! ```text
//! let mut lists = Lists::new(alloc, 4, 2)?;
//! lists.push_back(0, 3);
//! lists.push_back(0, 1);
//! lists.insert_before(1, 2);      // list 0 is 3, 2, 1
//! let mut current = lists.first(0);
//! while let Some(node) = current {
//!     ..
//!     current = lists.next(node);
//! }
//! lists.splice(0, 1);             // list 0 is empty, and list 1 is 3, 2, 1
//! ```
//!
//! The loop above is proved to see the nodes of its list, in order and each once, by the invariant
//! `IsWalk` of `specs/Walk.antt` and the laws of `proofs/Walks.antt`; `lists/tests.rt` has such a
//! loop. Which nodes are linked after a call is in `proofs/Linked.antt`, and what a list without
//! the node keeps in `proofs/Edits.antt`.
#![tactic(auto)]

mod arena;
mod link;
mod links;
mod lists;

pub use lists::Lists;
