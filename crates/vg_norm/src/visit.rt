ghost use Rattle.std.specs.Prelude.{◌≡◌, ◌<◌, false, true, length, replicate, slice_get, slice_set, Some, None, IfOk, OnOk};
ghost use Rattle.vg_graph.specs.Node.{AllBelow, args_of};
ghost use Rattle.vg_graph.specs.declared.operands.Operands.TheVariants as args;
ghost use Rattle.vg_graph.specs.Graph.{IsGraph};
ghost use Rattle.vg_norm.specs.Images.{HasImage, HasMoreImages, IsAdvanced, IsStep, IsVisit, IsWalk};

use crate::growing::Growing;
use std::alloc::{AllocError, Global};
use vg_graph::{Graph, Node, Op, Operands};

/// What is to be done with a node.
pub enum Step {
    /// To go into an operand that has no image yet.
    Wait(u32),
    /// To add the node over the images of its operands.
    Ready(Node),
}

/// The images of the nodes of a graph in a graph in normal form.
#[derive(Drop)]
pub struct Visit<'a> {
    pub fresh: Growing<'a>,
    pub images: Vec<Option<u32>>,
    /// The nodes that were gone into.
    pub opened: Vec<bool>,
}

/// The image of a node, where it has one.
fn image_of(images: &[Option<u32>], k: u32) -> Option<u32>
    requires { k < length images.now }
    ensures { slice_get images.now k ≡ Some result }
{
    images[k as usize]
}

/// What is to be done with a node over one operand.
fn one_step(images: &[Option<u32>], op: Op, a: u32) -> Step
    requires { a < length images.now }
    ensures { IsStep images.now (record { op = op; args = args.One a }) result }
{
    match image_of(images, a) {
        None => Step::Wait(a),
        Some(i) => Step::Ready(Node {
            op,
            args: Operands::One(i),
        }),
    }
}

/// What is to be done with a node over two operands.
fn two_step(images: &[Option<u32>], op: Op, a: u32, b: u32) -> Step
    requires first { a < length images.now }
    requires second { b < length images.now }
    ensures { IsStep images.now (record { op = op; args = args.Two a b }) result }
{
    let first = image_of(images, a);
    let second = image_of(images, b);
    match first {
        None => Step::Wait(a),
        Some(i) => match second {
            None => Step::Wait(b),
            Some(j) => Step::Ready(Node {
                op,
                args: Operands::Two(i, j),
            }),
        },
    }
}

/// What is to be done with a node over three operands.
fn three_step(images: &[Option<u32>], op: Op, a: u32, b: u32, c: u32) -> Step
    requires first { a < length images.now }
    requires second { b < length images.now }
    requires third { c < length images.now }
    ensures { IsStep images.now (record { op = op; args = args.Three a b c }) result }
{
    let first = image_of(images, a);
    let second = image_of(images, b);
    let third = image_of(images, c);
    match first {
        None => Step::Wait(a),
        Some(i) => match second {
            None => Step::Wait(b),
            Some(j) => match third {
                None => Step::Wait(c),
                Some(k) => Step::Ready(Node {
                    op,
                    args: Operands::Three(i, j, k),
                }),
            },
        },
    }
}

/// What is to be done with a node, where the nodes have these images.
fn next_step(images: &[Option<u32>], node: &Node) -> Step
    requires { AllBelow (length images.now) (args_of node.now) }
    ensures { IsStep images.now node.now result }
{
    match node.args {
        Operands::Zero => Step::Ready(Node {
            op: node.op,
            args: Operands::Zero,
        }),
        Operands::One(a) => one_step(images, node.op, a),
        Operands::Two(a, b) => two_step(images, node.op, a, b),
        Operands::Three(a, b, c) => three_step(images, node.op, a, b, c),
    }
}

/// No node has an image.
fn no_images(alloc: Global, count: usize) -> Result<Vec<Option<u32>>, AllocError>
    ensures { IfOk result (λ images. images.items ≡ replicate count None) }
{
    let images = vec![in alloc; None; count]?;
    Ok(images)
}

/// No node was gone into.
fn none_opened(alloc: Global, count: usize) -> Result<Vec<bool>, AllocError>
    ensures { IfOk result (λ opened. opened.items ≡ replicate count false) }
{
    let opened = vec![in alloc; false; count]?;
    Ok(opened)
}

impl<'a> Visit<'a> {
    /// No node has an image.
    pub fn new(alloc: Global, g: &Graph<'a>) -> Result<Visit<'a>, AllocError>
        ensures visit { IfOk result (λ visit. IsVisit g.now visit) }
        ensures graph { IsGraph g.now }
    {
        let fresh = Growing::new(alloc, g.isa())?;
        let count = g.count() as usize;
        let images = no_images(alloc, count)?;
        let opened = none_opened(alloc, count)?;
        Ok(Visit {
            fresh,
            images,
            opened,
        })
    }

    /// Makes the image of a node, if its operands have theirs; else tells one that has none.
    fn advance(&mut self, g: &Graph<'a>, n: u32) -> Result<Option<u32>, AllocError>
        requires graph { IsGraph g.now }
        requires visit { IsWalk g.now self.old }
        requires within { n < length g.now.nodes }
        ensures visit { OnOk result (IsWalk g.now self.new) }
        ensures more { OnOk result (HasMoreImages self.old self.new) }
        ensures opened { self.new.opened.items ≡ self.old.opened.items }
        ensures advanced { IfOk result (λ k. IsAdvanced g.now n self.new k) }
    {
        match next_step(self.images.as_slice(), g.node(n)) {
            Step::Wait(k) => Ok(Some(k)),
            Step::Ready(node) => {
                let j = self.fresh.add(&node)?;
                self.images[n as usize] = Some(j);
                Ok(None)
            }
        }
    }

    /// Notes that a node is gone into, which it never was.
    fn enter(&mut self, k: u32)
        requires { slice_get self.old.opened.items k ≡ Some false }
        ensures fresh { self.new.fresh ≡ self.old.fresh }
        ensures images { self.new.images ≡ self.old.images }
        ensures opened { self.new.opened.items ≡ slice_set self.old.opened.items k true }
    {
        self.opened[k as usize] = true;
    }

    /// The image of a node.
    pub fn image(&mut self, alloc: Global, g: &Graph<'a>, root: u32) -> Result<u32, AllocError>
        requires graph { IsGraph g.now }
        requires visit { IsVisit g.now self.old }
        requires within { root < length g.now.nodes }
        ensures visit { OnOk result (IsVisit g.now self.new) }
        ensures more { OnOk result (HasMoreImages self.old self.new) }
        ensures image { IfOk result (λ j. HasImage g.now root self.new.fresh.graph j) }
    {
        let mut stack = Vec::new(alloc);
        stack.push(root)?;
        while let Some(n) = stack.pop() {
            let waiting = self.advance(g, n)?;
            if let Some(k) = waiting {
                self.enter(k);
                stack.push(n)?;
                stack.push(k)?;
            }
        }
        match self.images[root as usize] {
            None => unreachable!(),
            Some(j) => Ok(j),
        }
    }
}
