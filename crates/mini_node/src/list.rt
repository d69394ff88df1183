//! The children of a node.

ghost use Rattle.std.specs.Prelude.{◌≡◌, ◌<◌, ◌≤◌, ◌+◌, ◌==◌, IfErr, IfOk, OnOk, OnErr, OnSome, IfSome, MatchOption};
ghost use Rattle.std.specs.Borrow.{sem};
ghost use Rattle.std.specs.Option.{option_copied, option_copied_mut};
ghost use Rattle.mini_model.specs.Tree.{none, ◌▸◌, count, absent, child_or_absent, node_count, node_counts};
ghost use Rattle.mini_model.specs.Paths.{append, child_at};
ghost use Rattle.mini_node.specs.Children.{with_child, with_inserted, without, first_children, rest_children, with_swapped, trees_of};
ghost use Rattle.mini_node.specs.Lends.{LendsChild, LendsChildIf};

use crate::node::Node;
use mini_model::{OutOfMemory, Shape};
use std::alloc::{AllocFailed, Global};
use std::marker::Model;
use std::mem;

/// The children of a node, in order. A contract sees their trees.
#[cycle(nodes)]
pub struct Nodes {
    items: Vec<Node>,
}

impl Model for Nodes {
    ghost use Rattle.mini_model.specs.Tree.{Trees, trees_code};

    ghost Value = { Trees };

    ghost coded = { trees_code };

    ghost use Rattle.mini_node.specs.Children.{trees_of, nodes_size};

    ghost view = { λ b. trees_of b.items.items };

    ghost size = { nodes_size };

    ghost use Rattle.std.proofs.Common.{arith};
    ghost use Rattle.mini_node.specs.Falls.{within-Nodes};

    ghost size_decreases = { λ b h. omega (arith, within-Nodes b.items.items) };
}

impl Nodes {
    /// No child.
    pub fn new(alloc: Global) -> Nodes
        ensures { result ≡ none }
    {
        Nodes {
            items: Vec::new(alloc),
        }
    }

    /// No child, with room for that many.
    ///
    /// The only error is that memory runs out.
    pub fn with_capacity(alloc: Global, capacity: usize) -> Result<Nodes, OutOfMemory>
        ensures { IfOk result (λ nodes. nodes ≡ none) }
    {
        match Vec::with_capacity(alloc, capacity) {
            Ok(items) => Ok(Nodes { items }),
            Err(_) => Err(OutOfMemory),
        }
    }

    /// The allocator that the list was made with.
    pub fn allocator(&self) -> Global {
        *self.items.allocator()
    }

    /// How many nodes there are.
    #[tactic(auto, using(crate::proofs::Lists::counted))]
    pub fn len(&self) -> usize
        ensures { result ≡ count self.now }
    {
        self.items.len()
    }

    /// Whether there is no node.
    #[tactic(auto, using(crate::proofs::Lists::counted))]
    pub fn is_empty(&self) -> bool
        ensures { result ≡ (count self.now == 0) }
    {
        self.items.is_empty()
    }

    /// The nodes, in order.
    pub fn as_slice(&self) -> &[Node]
        ensures { trees_of result.now ≡ self.now }
    {
        self.items.as_slice()
    }

    /// That many nodes from a place on, which the list must have.
    #[tactic(auto, using(crate::proofs::Lists::window, crate::proofs::Lists::counted))]
    pub fn window(&self, at: usize, size: usize) -> &[Node]
        requires { at + size ≤ count self.now }
        ensures { trees_of result.now ≡ first_children size (rest_children at self.now) }
    {
        &self.items[at..at + size]
    }

    /// The child at a place; None exactly where the place isn't below the length.
    #[tactic(auto, using(crate::proofs::Lists::seen_at, crate::proofs::Lists::counted))]
    pub fn get(&self, at: usize) -> Option<&Node>
        ensures value { option_copied result ≡ child_at self.now at }
        ensures within { OnSome result (at < count self.now) }
    {
        self.items.get(at)
    }

    /// The child at a place, for writing; None exactly where the place isn't below the length.
    #[tactic(auto, using(crate::proofs::Lists::set))]
    pub fn get_mut(&mut self, at: usize) -> Option<&mut Node>
        ensures* writes_back { sem 𝓛 (LendsChildIf self.entry at result) }
        ensures value { option_copied_mut result ≡ child_at self.old at }
    {
        self.items.get_mut(at)
    }

    /// The child at a place, which is below the length.
    #[tactic(auto, using(crate::proofs::Lists::read, crate::proofs::Lists::counted, crate::proofs::Lists::smaller))]
    pub fn child(&self, at: usize) -> &Node
        requires { at < count self.now }
        ensures value { result.now ≡ child_or_absent self.now at }
        ensures smaller { node_count result.now ≤ node_counts self.now }
    {
        &self.items[at]
    }

    /// The child at a place, which is below the length, for writing.
    #[tactic(auto, using(crate::proofs::Lists::set, crate::proofs::Lists::counted))]
    pub fn child_mut(&mut self, at: usize) -> &mut Node
        requires { at < count self.old }
        ensures* writes_back { sem 𝓛 (LendsChild self.entry at result) }
        ensures value { result.now ≡ child_or_absent self.old at }
    {
        &mut self.items[at]
    }

    /// Puts the node last. Where there is no memory the list is as it was, and the node comes back.
    #[tactic(auto, using(crate::proofs::Lists::joined))]
    pub fn try_push(&mut self, node: Node) -> Result<(), AllocFailed<Node>>
        ensures ok { OnOk result (self.new ≡ append self.old (node ▸ none)) }
        ensures err { OnErr result (self.new ≡ self.old) }
        ensures comes_back { IfErr result (λ refused. refused.value ≡ node) }
    {
        self.items.push(node)
    }

    /// Puts the node last. After `OutOfMemory` the list is as it was, and the node is gone.
    #[tactic(auto, using(crate::proofs::Lists::joined))]
    pub fn push(&mut self, node: Node) -> Result<(), OutOfMemory>
        ensures ok { OnOk result (self.new ≡ append self.old (node ▸ none)) }
        ensures err { OnErr result (self.new ≡ self.old) }
    {
        match self.items.push(node) {
            Ok(()) => Ok(()),
            Err(_) => Err(OutOfMemory),
        }
    }

    /// Puts the node at a place up to the length. Where there is no memory the list is as it was,
    /// and the node comes back.
    #[tactic(auto, using(crate::proofs::Lists::inserted, crate::proofs::Lists::counted))]
    pub fn try_insert(&mut self, at: usize, node: Node) -> Result<(), AllocFailed<Node>>
        requires { at ≤ count self.old }
        ensures ok { OnOk result (self.new ≡ with_inserted self.old at node) }
        ensures err { OnErr result (self.new ≡ self.old) }
        ensures comes_back { IfErr result (λ refused. refused.value ≡ node) }
    {
        self.items.insert(at, node)
    }

    /// Puts the node at a place up to the length. After `OutOfMemory` the list is as it was, and
    /// the node is gone.
    #[tactic(auto, using(crate::proofs::Lists::inserted, crate::proofs::Lists::counted))]
    pub fn insert(&mut self, at: usize, node: Node) -> Result<(), OutOfMemory>
        requires { at ≤ count self.old }
        ensures ok { OnOk result (self.new ≡ with_inserted self.old at node) }
        ensures err { OnErr result (self.new ≡ self.old) }
    {
        match self.items.insert(at, node) {
            Ok(()) => Ok(()),
            Err(_) => Err(OutOfMemory),
        }
    }

    /// Takes the child at a place out, which is below the length.
    #[tactic(auto, using(crate::proofs::Lists::removed, crate::proofs::Lists::read, crate::proofs::Lists::counted, crate::proofs::Lists::removed_nodes))]
    pub fn remove(&mut self, at: usize) -> Node
        requires { at < count self.old }
        ensures value { result ≡ child_or_absent self.old at }
        ensures rest { self.new ≡ without self.old at }
        ensures nodes { node_count result + node_counts self.new ≡ node_counts self.old }
    {
        self.items.remove(at)
    }

    /// Takes the last node out; None exactly where the list is empty.
    #[tactic(auto, using(crate::proofs::Lists::joined, crate::proofs::Lists::popped_nodes))]
    pub fn pop(&mut self) -> Option<Node>
        ensures value { MatchOption result
            ((self.old ≡ none) × (self.new ≡ none))
            (λ last. self.old ≡ append self.new (last ▸ none)) }
        ensures nodes { IfSome result (λ last. node_count last + node_counts self.new ≡ node_counts self.old) }
    {
        self.items.pop()
    }

    /// Puts a node at a place, which is below the length, and gives the child that stood there.
    #[tactic(auto, using(crate::proofs::Lists::set, crate::proofs::Lists::read, crate::proofs::Lists::counted))]
    pub fn replace(&mut self, at: usize, node: Node) -> Node
        requires { at < count self.old }
        ensures value { result ≡ child_or_absent self.old at }
        ensures rest { self.new ≡ with_child self.old at node }
    {
        mem::replace(&mut self.items[at], node)
    }

    /// Takes the child at a place out, which is below the length, and leaves an absent part there.
    pub fn take(&mut self, at: usize) -> Node
        requires { at < count self.old }
        ensures value { result ≡ child_or_absent self.old at }
        ensures rest { self.new ≡ with_child self.old at absent }
    {
        let absent = Node::leaf(self.allocator(), Shape::Absent);
        self.replace(at, absent)
    }

    /// Exchanges the children at two places, which are below the length.
    #[tactic(auto, using(crate::proofs::Lists::swapped, crate::proofs::Lists::counted))]
    pub fn swap(&mut self, first: usize, second: usize)
        requires first_within { first < count self.old }
        requires second_within { second < count self.old }
        ensures { self.new ≡ with_swapped self.old first second }
    {
        self.items.swap(first, second);
    }

    /// Moves the nodes of another list to the end of this one. Where there is no memory both are as
    /// they were.
    #[tactic(auto, using(crate::proofs::Lists::joined))]
    pub fn append(&mut self, other: &mut Nodes) -> Result<(), OutOfMemory>
        ensures ok { OnOk result ((self.new ≡ append self.old other.old) × (other.new ≡ none)) }
        ensures err { OnErr result ((self.new ≡ self.old) × (other.new ≡ other.old)) }
    {
        match self.items.append(&mut other.items) {
            Ok(()) => Ok(()),
            Err(_) => Err(OutOfMemory),
        }
    }

    /// Moves the nodes from a place on into a list of their own. Where there is no memory the list
    /// is as it was.
    #[tactic(auto, using(crate::proofs::Lists::first, crate::proofs::Lists::rest, crate::proofs::Lists::counted))]
    pub fn split_off(&mut self, at: usize) -> Result<Nodes, OutOfMemory>
        requires { at ≤ count self.old }
        ensures ok { OnOk result (self.new ≡ first_children at self.old) }
        ensures rest { IfOk result (λ rest. rest ≡ rest_children at self.old) }
        ensures err { OnErr result (self.new ≡ self.old) }
    {
        match self.items.split_off(at) {
            Ok(items) => Ok(Nodes { items }),
            Err(_) => Err(OutOfMemory),
        }
    }
}

impl Drop for Nodes {
    #[cycle(dropping)]
    fn drop(self) {
        let Nodes { items } = self;
        drop(items);
    }
}
