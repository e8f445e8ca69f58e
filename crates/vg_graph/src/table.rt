ghost use Rattle.std.specs.Prelude.{◌≡◌, ◌+◌, ◌^◌, ◌<◌, ◌≤◌, length, IfOk, OnOk};
ghost use Rattle.vg_list.specs.NodeLists.{IsLinked};
ghost use Rattle.vg_graph.specs.Table.{HasRoom, IsIndexed, IsFound, put_in, taken_out};

use crate::hashing::bucket;
use crate::node::Node;
use crate::same::is_same;
use std::alloc::{AllocError, Global};
use vg_list::Lists;

/// Finds a node by its operator and its operands. Nodes stand in the lists of their buckets.
#[derive(Drop)]
pub struct Table {
    pub buckets: Lists,
    /// How many nodes there is room for, and how many buckets there are.
    pub room: u32,
}

impl Table {
    /// The table of these nodes, with room for so many.
    pub fn of(alloc: Global, nodes: &[Node], room: u32) -> Result<Table, AllocError>
        requires some { 0 < room }
        requires fits { length nodes.now ≤ room }
        ensures indexed { IfOk result (λ table. IsIndexed nodes.now table) }
        ensures room { IfOk result (λ table. table.room ≡ room) }
    {
        let mut table = Table {
            buckets: Lists::new(alloc, room, room)?,
            room,
        };
        for n in 0..nodes.len() {
            table.insert(n as u32, &nodes[n]);
        }
        Ok(table)
    }

    /// Makes room for one node more, behind these.
    pub fn grow(&mut self, alloc: Global, nodes: &[Node]) -> Result<(), AllocError>
        requires indexed { IsIndexed nodes.now self.old }
        requires few { length nodes.now + 1 < 2 ^ 32 }
        ensures indexed { IsIndexed nodes.now self.new }
        ensures room { OnOk result (length nodes.now < self.new.room) }
    {
        if nodes.len() < self.room as usize {
            return Ok(());
        }
        *self = Table::of(alloc, nodes, self.room.saturating_mul(2))?;
        Ok(())
    }

    /// Puts in a number that isn't in.
    pub fn insert(&mut self, n: u32, node: &Node)
        requires room { HasRoom self.old }
        requires within { n < self.old.room }
        requires free { ¬ IsLinked self.old.buckets n }
        ensures { self.new ≡ put_in self.old n node.now }
    {
        self.buckets.push_back(bucket(self.room, node), n);
    }

    /// Moves a number to the bucket of another node.
    #[tactic(auto, using(crate::proofs::TableLemmas::taken))]
    pub fn reassign(&mut self, n: u32, node: &Node)
        requires room { HasRoom self.old }
        requires within { n < self.old.room }
        requires linked { IsLinked self.old.buckets n }
        ensures { self.new ≡ put_in (taken_out self.old n) n node.now }
    {
        self.buckets.unlink(n);
        self.insert(n, node);
    }

    /// The number of a node with this operator and these operands; None where there is none such.
    pub fn find(&self, nodes: &[Node], node: &Node) -> Option<u32>
        requires { IsIndexed nodes.now self.now }
        ensures { IsFound nodes.now node.now result }
    {
        let mut current = self.buckets.first(bucket(self.room, node));
        while let Some(n) = current {
            if is_same(&nodes[n as usize], node) {
                return Some(n);
            }
            current = self.buckets.next(n);
        }
        None
    }
}
