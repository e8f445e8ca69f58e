ghost use Rattle.std.specs.Prelude.{◌≡◌, ◌+◌, ◌^◌, ◌<◌, ◌≤◌, [], ◌++◌, length, map, replicate, vec_len, vec_capacity, OnOk, OnErr};
ghost use Rattle.std.specs.List.{range_with_len};
ghost use Rattle.vg_list.specs.Arena.{next_link, prev_link, no_links, empty_ring, IsInRange, SetsNext, SetsPrev, Joins, Clears, SameCounts, Grows, SameLinks};

use crate::link::Link;
use crate::links::Links;
use std::alloc::{AllocError, Global};

/// The links of all nodes and of the sentinels of all lists.
#[derive(Drop)]
pub struct Arena {
    pub nodes: Vec<Links>,
    pub sentinels: Vec<Links>,
}

impl Arena {
    /// No nodes and no lists. It takes no memory.
    pub fn new(alloc: Global) -> Arena
        ensures nodes { result.nodes.items ≡ [] }
        ensures sentinels { result.sentinels.items ≡ [] }
    {
        Arena {
            nodes: Vec::new(alloc),
            sentinels: Vec::new(alloc),
        }
    }

    /// Adds so many nodes without links and so many empty lists.
    pub fn grow(&mut self, nodes: u32, lists: u32) -> Result<(), AllocError>
        requires { length self.old.sentinels.items + lists < 2 ^ 32 }
        ensures ok { OnOk result (Grows self.old self.new nodes lists) }
        ensures err { OnErr result (SameLinks self.old self.new) }
    {
        self.nodes.reserve(nodes as usize)?;
        self.sentinels.reserve(lists as usize)?;
        push_unlinked(&mut self.nodes, nodes);
        push_empty(&mut self.sentinels, lists);
        Ok(())
    }

    /// Where the link to what follows leads.
    #[inline]
    pub fn next(&self, at: Link) -> Link
        requires { IsInRange self.now at }
        ensures { result ≡ next_link self.now at }
    {
        match at {
            Link::Node(node) => self.nodes[node as usize].next,
            Link::Sentinel(list) => self.sentinels[list as usize].next,
            Link::Unlinked => unreachable!(),
        }
    }

    /// Where the link to what stands before leads.
    #[inline]
    pub fn prev(&self, at: Link) -> Link
        requires { IsInRange self.now at }
        ensures { result ≡ prev_link self.now at }
    {
        match at {
            Link::Node(node) => self.nodes[node as usize].prev,
            Link::Sentinel(list) => self.sentinels[list as usize].prev,
            Link::Unlinked => unreachable!(),
        }
    }

    /// Sets the link to what follows.
    #[inline]
    pub fn set_next(&mut self, at: Link, to: Link)
        requires { IsInRange self.old at }
        ensures links { SetsNext self.old self.new at to }
        ensures counts { SameCounts self.old self.new }
    {
        match at {
            Link::Node(node) => self.nodes[node as usize].next = to,
            Link::Sentinel(list) => self.sentinels[list as usize].next = to,
            Link::Unlinked => unreachable!(),
        }
    }

    /// Sets the link to what stands before.
    #[inline]
    pub fn set_prev(&mut self, at: Link, to: Link)
        requires { IsInRange self.old at }
        ensures links { SetsPrev self.old self.new at to }
        ensures counts { SameCounts self.old self.new }
    {
        match at {
            Link::Node(node) => self.nodes[node as usize].prev = to,
            Link::Sentinel(list) => self.sentinels[list as usize].prev = to,
            Link::Unlinked => unreachable!(),
        }
    }

    /// Makes `after` follow `before`, by both links between them.
    #[inline]
    pub fn join(&mut self, before: Link, after: Link)
        requires before { IsInRange self.old before }
        requires after { IsInRange self.old after }
        ensures links { Joins self.old self.new before after }
        ensures counts { SameCounts self.old self.new }
    {
        self.set_next(before, after);
        self.set_prev(after, before);
    }

    /// Takes the links off a node.
    #[inline]
    pub fn clear(&mut self, node: u32)
        requires { node < length self.old.nodes.items }
        ensures links { Clears self.old self.new node }
        ensures counts { SameCounts self.old self.new }
    {
        self.nodes[node as usize] = Links {
            prev: Link::Unlinked,
            next: Link::Unlinked,
        };
    }
}

/// Adds so many nodes without links, for which there is room.
fn push_unlinked(nodes: &mut Vec<Links>, count: u32)
    requires { vec_len nodes.old + count ≤ vec_capacity nodes.old }
    ensures { nodes.new.items ≡ nodes.old.items ++ replicate count no_links }
{
    for _added in 0..count {
        let unlinked = Links {
            prev: Link::Unlinked,
            next: Link::Unlinked,
        };
        nodes.push(unlinked).unwrap();
    }
}

/// Adds the sentinels of so many empty lists, for which there is room.
fn push_empty(sentinels: &mut Vec<Links>, count: u32)
    requires room { vec_len sentinels.old + count ≤ vec_capacity sentinels.old }
    requires numbers { length sentinels.old.items + count < 2 ^ 32 }
    ensures { sentinels.new.items
        ≡ sentinels.old.items ++ map empty_ring (range_with_len (length sentinels.old.items) count) }
{
    for _added in 0..count {
        let sentinel = Link::Sentinel(sentinels.len() as u32);
        let ring = Links {
            prev: sentinel,
            next: sentinel,
        };
        sentinels.push(ring).unwrap();
    }
}
