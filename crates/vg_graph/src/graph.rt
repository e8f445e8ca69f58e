use crate::behaviour::add_parts;
use crate::evaluation::value_at;
use crate::node::Node;
use crate::root::Root;
use crate::roots::Roots;
use crate::store::Store;
use sqlite_items::Items;
use std::alloc::{AllocError, Global};
use std::marker::Model;
use vg_bits::Bits;
use vg_isa::{InstrId, Isa, View};

/// The nodes of a behaviour, which share what they have in common.
#[derive(Drop)]
pub struct Graph<'a> {
    isa: &'a Isa,
    store: Store,
    roots: Roots,
}

impl<'a> Model for Graph<'a> {
    ghost use Rattle.vg_isa.specs.contracts.isa.Parts as parts_type;
    ghost use Rattle.std.specs.Coded.{codes};
    ghost use Rattle.vg_graph.specs.Graph.{GraphValue};
    ghost use Rattle.vg_graph.specs.Whole.{IsWhole};

    ghost Value = { GraphValue };

    ghost coded = { Prim.hlevel (codes, parts_type.the_row.coded) };

    ghost view = { λ g. record {
      isa = g.isa.now;
      nodes = g.store.nodes.items;
      users = g.store.users.lists;
      roots = g.roots;
    } };

    ghost invariant = { λ g. IsWhole g.isa.now g.store g.roots };
}

impl<'a> Graph<'a> {
    ghost use Rattle.std.specs.Prelude.{◌≡◌, ℕ, ◌+◌, ◌<◌, ◌^◌, [], length, slice_get, Some, None, IfOk, OnErr};
    ghost use Rattle.vg_graph.specs.Node.{args_of};
    ghost use Rattle.vg_isa.specs.Value.{HasDeclaredWidths, Reads};
    ghost use Rattle.vg_graph.specs.Evaluation.{IsWorth};
    ghost use Rattle.vg_graph.specs.Tree.{Uses};
    ghost use Rattle.vg_graph.specs.Replaced.{HaveOneValue, HaveOneWidth, replaced};
    ghost use Rattle.vg_graph.specs.Graph.{AreUsers, IsAdded, IsFit, IsGraph, IsShared, edges_of, root_of, users_of};
    ghost use Rattle.vg_graph.specs.Behaviour.{AreRootsOf, IsGraphOfNumber};

    /// A graph without nodes, for a behaviour of this description.
    pub fn empty(alloc: Global, isa: &'a Isa) -> Result<Graph<'a>, AllocError>
        ensures { IfOk result (λ g. g ≡ record {
          isa = isa.now;
          nodes = [];
          users = [];
          roots = record { writes = []; next = None };
        }) }
    {
        let store = Store::new(alloc)?;
        let roots = Roots {
            writes: Items::new(alloc),
            next: None,
        };
        Ok(Graph { isa, store, roots })
    }

    /// The graph of an instruction: each part of it has a root, at which its tree stands. Equal nodes are one.
    ///
    /// It takes time for the nodes of the trees, and memory for those that differ. A tree may be deep.
    pub fn of(alloc: Global, isa: &'a Isa, i: InstrId) -> Result<Graph<'a>, AllocError>
        requires { i.0 < length isa.now.instrs }
        ensures isa { IfOk result (λ g. g.isa ≡ isa.now) }
        ensures graph { IfOk result (λ g. IsGraphOfNumber isa.now i.0 g) }
        ensures shared { IfOk result (λ g. IsShared g) }
    {
        let mut graph = Graph::empty(alloc, isa)?;
        let roots = add_parts(&mut graph, alloc, isa.instr(i))?;
        graph.set_roots(roots);
        Ok(graph)
    }

    /// The description of which the behaviour is.
    pub fn isa(&self) -> &'a Isa
        ensures isa { result.now ≡ self.now.isa }
        ensures graph { IsGraph self.now }
    {
        self.isa
    }

    /// How many nodes there are. They go by the numbers from 0 on.
    pub fn count(&self) -> u32
        ensures { result ≡ length self.now.nodes }
    {
        self.store.nodes.len() as u32
    }

    /// The node of this number.
    pub fn node(&self, n: u32) -> &Node
        requires { n < length self.now.nodes }
        ensures { slice_get self.now.nodes n ≡ Some result.now }
    {
        &self.store.nodes[n as usize]
    }

    /// The node that stands for a part of the instruction; None exactly where there is no such part.
    pub fn root(&self, r: Root) -> Option<u32>
        ensures { result ≡ root_of self.now.roots r }
    {
        self.roots.node(r)
    }

    /// The value of the tree at a node, for an instruction word in a state. Each node that it uses is evaluated once.
    ///
    /// The word has the width of the formats, and the view stands for a state of the description.
    pub fn value<V: View>(&self, n: u32, word: Bits, v: &V) -> Result<Bits, AllocError>
        requires node { n < length self.now.nodes }
        requires word { word.width ≡ self.now.isa.word }
        requires registers { V.registers v.now ≡ self.now.isa.regs }
        requires widths { HasDeclaredWidths self.now.isa (V.reads v.now) }
        ensures value { IfOk result (λ b. IsWorth self.now.isa self.now.nodes word.number (V.reads v.now) n b) }
        ensures graph { IsGraph self.now }
    {
        value_at(
            self.store.alloc,
            self.isa,
            self.store.nodes.as_slice(),
            n,
            word,
            v,
        )
    }

    /// The nodes that stand for the parts of the instruction.
    pub fn roots(&self) -> &Roots
        ensures roots { result.now ≡ self.now.roots }
        ensures graph { IsGraph self.now }
    {
        &self.roots
    }

    /// Other nodes stand for the parts. All else stays.
    pub fn set_roots(&mut self, roots: Roots)
        requires { AreRootsOf self.old roots }
        ensures { self.new ≡ record self.old { roots = roots } }
    {
        self.roots = roots;
    }

    /// The first of the edges that name the node; None where there is none.
    pub fn first_user(&self, n: u32) -> Option<u32>
        requires { n < length self.now.nodes }
        ensures edge { result ≡ slice_get (users_of self.now n) 0 }
        ensures users { AreUsers self.now }
    {
        self.store.users.first(n)
    }

    /// The edge behind this one among those that name the same node; None where this is the last.
    pub fn next_user(&self, e: u32) -> Option<u32>
        requires { e < length (edges_of self.now.nodes) }
        ensures edge { (n place : ℕ) → slice_get (users_of self.now n) place ≡ Some e → result ≡ slice_get (users_of self.now n) (place + 1) }
        ensures users { AreUsers self.now }
    {
        self.store.users.next(e)
    }

    /// The node whose operand the edge is, and the place among its operands.
    pub fn user(&self, e: u32) -> (u32, u8)
        requires { e < length (edges_of self.now.nodes) }
        ensures { slice_get (edges_of self.now.nodes) e ≡ Some result }
    {
        self.store.edges[e as usize]
    }

    /// A node with this operator and these operands: the one that is there, or a new one. Without the memory for it
    /// nothing changes.
    pub fn add(&mut self, node: Node) -> Result<u32, AllocError>
        requires fit { IsFit self.old node }
        requires nodes { length self.old.nodes + 1 < 2 ^ 32 }
        requires edges { length (edges_of self.old.nodes) + length (args_of node) < 2 ^ 32 }
        ensures ok { IfOk result (λ n. IsAdded self.old self.new node n) }
        ensures err { OnErr result (self.new ≡ self.old) }
        ensures graph { IsGraph self.new }
    {
        self.store.add(&node)
    }

    /// As `add`; but a node that would be one too many is refused as if there were no memory for it.
    pub fn add_or_refuse(&mut self, node: Node) -> Result<u32, AllocError>
        requires { IsFit self.old node }
        ensures ok { IfOk result (λ n. IsAdded self.old self.new node n) }
        ensures err { OnErr result (self.new ≡ self.old) }
        ensures graph { IsGraph self.new }
    {
        let nodes = self.store.nodes.len() + 1;
        let edges = self.store.edges.len() + node.args.count() as usize;
        if nodes > u32::MAX as usize || edges > u32::MAX as usize {
            return Err(AllocError);
        }
        self.add(node)
    }

    /// Every operand and every root that is the node `old` becomes the node `new`; all else stays. Their users are
    /// moved at once.
    ///
    /// The nodes have one width, and `new` doesn't use `old`. Where they have one value, for a word in a state, each
    /// node keeps its value.
    pub fn replace_uses(&mut self, old: u32, new: u32)
        requires source { old < length self.old.nodes }
        requires target { new < length self.old.nodes }
        requires widths { HaveOneWidth self.old old new }
        requires apart { ¬ Uses self.old.nodes old new }
        ensures graph { self.new ≡ replaced old new self.old }
        ensures values { (word : ℕ) (s : Reads) → HaveOneValue word s self.old old self.old new
            → (n : ℕ) → HaveOneValue word s self.old n self.new n }
    {
        if old != new {
            self.store.replace(old, new);
            self.roots.replace(old, new);
        }
    }
}
