ghost use Rattle.std.specs.Prelude.{◌≡◌, ◌≢◌, ℕ, ◌+◌, ◌^◌, ◌<◌, ◌↔◌, [], ◌∷◌, ◌++◌, insert, length, map, remove, replicate, slice_get, slice_set, IsTrue, IfOk, OnOk, OnErr};
ghost use Rattle.vg_list.specs.NodeLists.{nodes_of, IsAt, IsLinked, IsDisjoint, inserted_before, without};

use crate::arena::Arena;
use crate::link::Link;
use std::alloc::{AllocError, Global};
use std::marker::Model;

/// Many disjoint lists of nodes. Nodes and lists go by their numbers, from 0 on.
#[derive(Drop)]
pub struct Lists {
    arena: Arena,
}

impl Model for Lists {
    ghost use Rattle.vg_list.specs.NodeLists.{NodeLists};
    ghost use Rattle.vg_list.specs.Arena.{lists_of, IsSound};

    ghost Value = { NodeLists };

    ghost view = { λ a. lists_of a.arena };

    ghost invariant = { λ a. IsSound a.arena };
}

impl Lists {
    /// So many nodes in no list, and so many empty lists.
    pub fn new(alloc: Global, nodes: u32, lists: u32) -> Result<Lists, AllocError>
        ensures { IfOk result (λ made. made ≡ record { nodes = nodes; lists = replicate lists [] }) }
    {
        let mut arena = Arena::new(alloc);
        arena.grow(nodes, lists)?;
        Ok(Lists { arena })
    }

    /// Adds so many nodes in no list, and so many empty lists. Without the memory for both it
    /// changes nothing.
    pub fn grow(&mut self, nodes: u32, lists: u32) -> Result<(), AllocError>
        requires nodes { self.old.nodes + nodes < 2 ^ 32 }
        requires lists { length self.old.lists + lists < 2 ^ 32 }
        ensures ok { OnOk result (self.new ≡ record {
          nodes = self.old.nodes + nodes;
          lists = self.old.lists ++ replicate lists [];
        }) }
        ensures err { OnErr result (self.new ≡ self.old) }
    {
        self.arena.grow(nodes, lists)
    }

    /// Puts the node at the end of the list.
    #[inline]
    pub fn push_back(&mut self, list: u32, node: u32)
        requires list { list < length self.old.lists }
        requires node { node < self.old.nodes }
        requires free { ¬ IsLinked self.old node }
        ensures { self.new ≡ record self.old {
          lists = slice_set self.old.lists list (nodes_of self.old list ++ node ∷ []);
        } }
    {
        let before = self.arena.prev(Link::Sentinel(list));
        self.arena.join(before, Link::Node(node));
        self.arena.join(Link::Node(node), Link::Sentinel(list));
    }

    /// Puts the node into the list of the node `at`, before that one.
    #[inline]
    pub fn insert_before(&mut self, at: u32, node: u32)
        requires at { IsLinked self.old at }
        requires node { node < self.old.nodes }
        requires free { ¬ IsLinked self.old node }
        ensures value { self.new ≡ record self.old {
          lists = map (inserted_before at node) self.old.lists;
        } }

        // The same by the place of `at`: the node goes there, and all other lists stay.
        ensures place { (list place : ℕ) → IsAt self.old list place at → self.new.lists
            ≡ slice_set self.old.lists list (insert (nodes_of self.old list) place node) }
    {
        let before = self.arena.prev(Link::Node(at));
        self.arena.join(before, Link::Node(node));
        self.arena.join(Link::Node(node), Link::Node(at));
    }

    /// Takes the node out of its list.
    #[inline]
    pub fn unlink(&mut self, node: u32)
        requires { IsLinked self.old node }
        ensures value { self.new ≡ record self.old {
          lists = map (without node) self.old.lists;
        } }

        // The same by the node's place: it goes from there, and all other lists stay.
        ensures place { (list place : ℕ) → IsAt self.old list place node → self.new.lists
            ≡ slice_set self.old.lists list (remove (nodes_of self.old list) place) }
    {
        let before = self.arena.prev(Link::Node(node));
        let after = self.arena.next(Link::Node(node));
        self.arena.join(before, after);
        self.arena.clear(node);
    }

    /// Puts the nodes of the list `from` behind those of the list `to`; `from` is empty then.
    #[inline]
    pub fn splice(&mut self, from: u32, to: u32)
        requires from { from < length self.old.lists }
        requires to { to < length self.old.lists }
        requires differ { from ≢ to }
        ensures { self.new ≡ record self.old {
          lists = slice_set
              (slice_set self.old.lists to (nodes_of self.old to ++ nodes_of self.old from))
              from [];
        } }
    {
        let first = self.arena.next(Link::Sentinel(from));
        if let Link::Node(_) = first {
            let last = self.arena.prev(Link::Sentinel(from));
            let end = self.arena.prev(Link::Sentinel(to));
            self.arena.join(end, first);
            self.arena.join(last, Link::Sentinel(to));
            self.arena.join(Link::Sentinel(from), Link::Sentinel(from));
        }
    }

    /// The first node of the list, or None where the list is empty.
    #[inline]
    pub fn first(&self, list: u32) -> Option<u32>
        requires { list < length self.now.lists }
        ensures node { result ≡ slice_get (nodes_of self.now list) 0 }
        ensures disjoint { IsDisjoint self.now }
    {
        self.arena.next(Link::Sentinel(list)).node()
    }

    /// The node behind this one in its list, or None where this one is the last.
    #[inline]
    pub fn next(&self, node: u32) -> Option<u32>
        requires { IsLinked self.now node }
        ensures node { (list place : ℕ) → IsAt self.now list place node
            → result ≡ slice_get (nodes_of self.now list) (place + 1) }
        ensures disjoint { IsDisjoint self.now }
    {
        self.arena.next(Link::Node(node)).node()
    }

    /// Whether the node is in a list.
    #[inline]
    pub fn is_linked(&self, node: u32) -> bool
        requires { node < self.now.nodes }
        ensures { IsTrue result ↔ IsLinked self.now node }
    {
        self.arena.next(Link::Node(node)).leads()
    }
}

#[cfg(test)]
mod tests;
