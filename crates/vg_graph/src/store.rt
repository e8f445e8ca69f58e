ghost use Rattle.std.specs.Prelude.{◌≡◌, ◌≢◌, ℕ, ◌+◌, ◌<◌, ◌≤◌, ◌^◌, [], ◌∷◌, ◌++◌, map, length, slice_get, slice_set, Some, None, IfOk, OnOk, OnErr, vec_len, vec_capacity};
ghost use Rattle.vg_graph.specs.Node.{args_of, numbers_of, AllBelow};
ghost use Rattle.vg_graph.specs.Graph.{places_of, users_at, with_users, edges_of, AreExact};
ghost use Rattle.vg_graph.specs.Replaced.{moved_lists, renamed_node};
ghost use Rattle.vg_graph.specs.Table.{IsFound, IsIndexed};
ghost use Rattle.vg_graph.specs.Store.{IsStore, IsRoomy, LinkedBelow, IsStoreAdded, SameNodes, IsRetargeted};

use crate::node::{Node, push_node};
use crate::operands::Operands;
use crate::table::Table;
use std::alloc::{AllocError, Global};
use vg_list::Lists;

/// The nodes of a graph with their edges.
#[derive(Drop)]
pub struct Store {
    pub nodes: Vec<Node>,
    /// For each edge the node whose operand it is, and the place among the operands.
    pub edges: Vec<(u32, u8)>,
    /// For each node the edges that name it.
    pub users: Lists,
    pub table: Table,
    pub alloc: Global,
}

impl Store {
    /// No nodes.
    pub fn new(alloc: Global) -> Result<Store, AllocError>
        ensures store { IfOk result (λ store. IsStore store) }
        ensures empty { IfOk result (λ store. store.nodes.items ≡ []) }
        ensures unused { IfOk result (λ store. store.users.lists ≡ []) }
    {
        Ok(Store {
            nodes: Vec::new(alloc),
            edges: Vec::new(alloc),
            users: Lists::new(alloc, 0, 0)?,
            table: Table::of(alloc, &[], 8)?,
            alloc,
        })
    }

    /// Takes the memory for one node more.
    #[tactic(auto, using(crate::proofs::StoreLemmas::store_same))]
    fn make_room(&mut self, node: &Node) -> Result<(), AllocError>
        requires store { IsStore self.old }
        requires nodes { length self.old.nodes.items + 1 < 2 ^ 32 }
        requires edges { length self.old.edges.items + length (args_of node.now) < 2 ^ 32 }
        ensures roomy { OnOk result (IsRoomy self.new node.now) }
        ensures nodes { self.new.nodes.items ≡ self.old.nodes.items }
        ensures users { OnOk result (self.new.users.lists ≡ self.old.users.lists ++ [] ∷ []) }
        ensures store { OnErr result (IsStore self.new) }
        ensures unused { OnErr result (self.new.users.lists ≡ self.old.users.lists) }
    {
        let count = node.args.count();
        self.nodes.reserve(1)?;
        self.edges.reserve(count as usize)?;
        self.table.grow(self.alloc, self.nodes.as_slice())?;
        self.users.grow(count as u32, 1)
    }

    /// Puts a node behind the others, for which there is room.
    fn append(&mut self, node: &Node) -> u32
        requires roomy { IsRoomy self.old node.now }
        requires nodes { length self.old.nodes.items + 1 < 2 ^ 32 }
        requires edges { length self.old.edges.items + length (args_of node.now) < 2 ^ 32 }
        requires targets { AllBelow (length self.old.users.lists) (args_of node.now) }
        requires lists { length self.old.users.lists ≡ length self.old.nodes.items + 1 }
        requires exact { AreExact (self.old.nodes.items ++ node.now ∷ []) (with_users self.old.users.lists (length (edges_of self.old.nodes.items)) (args_of node.now)) }
        ensures number { result ≡ length self.old.nodes.items }
        ensures store { IsStore self.new }
        ensures nodes { self.new.nodes.items ≡ self.old.nodes.items ++ node.now ∷ [] }
        ensures users { self.new.users.lists ≡ with_users self.old.users.lists (length (edges_of self.old.nodes.items)) (args_of node.now) }
    {
        let n = self.nodes.len() as u32;
        let edge = self.edges.len() as u32;
        push_places(&mut self.edges, n, node);
        link_operands(&mut self.users, edge, node);
        self.table.insert(n, node);
        push_node(&mut self.nodes, node);
        n
    }

    /// Makes an edge name the node `to`. The lists of users stay.
    fn retarget(&mut self, e: u32, to: u32)
        requires edge { e < length self.old.edges.items }
        requires edges { self.old.edges.items ≡ edges_of self.old.nodes.items }
        requires indexed { IsIndexed self.old.nodes.items self.old.table }
        ensures nodes { (place : ℕ × ℕ) × (slice_get self.old.edges.items e ≡ Some place) × IsRetargeted self.old.nodes.items self.new.nodes.items place.0 place.1 to }
        ensures edges { self.new.edges.items ≡ self.old.edges.items }
        ensures users { self.new.users ≡ self.old.users }
        ensures indexed { IsIndexed self.new.nodes.items self.new.table }
    {
        let (n, place) = self.edges[e as usize];
        let node = self.nodes[n as usize];
        let changed = Node {
            op: node.op,
            args: node.args.with(place, to),
        };
        self.table.reassign(n, &changed);
        self.nodes[n as usize] = changed;
    }

    /// Every operand that is the node `old` becomes the node `new`.
    pub fn replace(&mut self, old: u32, new: u32)
        requires store { IsStore self.old }
        requires source { old < length self.old.nodes.items }
        requires target { new < length self.old.nodes.items }
        requires differ { old ≢ new }
        ensures store { IsStore self.new }
        ensures nodes { self.new.nodes.items ≡ map (renamed_node old new) self.old.nodes.items }
        ensures users { self.new.users.lists ≡ moved_lists old new self.old.users.lists }
    {
        let mut current = self.users.first(old);
        while let Some(e) = current {
            self.retarget(e, new);
            current = self.users.next(e);
        }
        self.users.splice(old, new);
    }

    /// A node with this operator and these operands, the one that is there or a new one.
    pub fn add(&mut self, node: &Node) -> Result<u32, AllocError>
        requires store { IsStore self.old }
        requires targets { AllBelow (length self.old.nodes.items) (args_of node.now) }
        requires nodes { length self.old.nodes.items + 1 < 2 ^ 32 }
        requires edges { length (edges_of self.old.nodes.items) + length (args_of node.now) < 2 ^ 32 }
        ensures store { IsStore self.new }
        ensures ok { IfOk result (λ n. IsStoreAdded self.old self.new node.now n) }
        ensures err { OnErr result (SameNodes self.old self.new) }
    {
        if let Some(n) = self.table.find(self.nodes.as_slice(), node) {
            return Ok(n);
        }
        self.make_room(node)?;
        Ok(self.append(node))
    }
}

/// Puts the places of the operands of the node `n` behind the others. There is room for them.
fn push_places(edges: &mut Vec<(u32, u8)>, n: u32, node: &Node)
    requires { vec_len edges.old + length (args_of node.now) ≤ vec_capacity edges.old }
    ensures { edges.new.items ≡ edges.old.items ++ places_of n node.now }
{
    match node.args {
        Operands::Zero => {}
        Operands::One(_) => edges.push((n, 0)).unwrap(),
        Operands::Two(..) => {
            edges.push((n, 0)).unwrap();
            edges.push((n, 1)).unwrap();
        }
        Operands::Three(..) => {
            edges.push((n, 0)).unwrap();
            edges.push((n, 1)).unwrap();
            edges.push((n, 2)).unwrap();
        }
    }
}

/// Puts an edge behind all others into the list of the node that it names.
fn link(users: &mut Lists, edge: u32, target: u32)
    requires target { target < length users.old.lists }
    requires edge { edge < users.old.nodes }
    requires below { LinkedBelow users.old edge }
    ensures lists { users.new.lists ≡ slice_set users.old.lists target (users_at users.old.lists target ++ edge ∷ []) }
    ensures nodes { users.new.nodes ≡ users.old.nodes }
    ensures below { LinkedBelow users.new (edge + 1) }
{
    users.push_back(target, edge);
}

/// Puts the edges from `edge` on into the lists of the nodes that they name.
fn link_operands(users: &mut Lists, edge: u32, node: &Node)
    requires targets { AllBelow (length users.old.lists) (args_of node.now) }
    requires edges { edge + length (args_of node.now) ≤ users.old.nodes }
    requires few { users.old.nodes < 2 ^ 32 }
    requires below { LinkedBelow users.old edge }
    ensures lists { users.new.lists ≡ with_users users.old.lists edge (args_of node.now) }
    ensures nodes { users.new.nodes ≡ users.old.nodes }
{
    match node.args {
        Operands::Zero => {}
        Operands::One(a) => link(users, edge, a),
        Operands::Two(a, b) => {
            link(users, edge, a);
            link(users, edge + 1, b);
        }
        Operands::Three(a, b, c) => {
            link(users, edge, a);
            link(users, edge + 1, b);
            link(users, edge + 2, c);
        }
    }
}
