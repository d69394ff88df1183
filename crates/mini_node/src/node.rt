//! The node.

ghost use Rattle.std.specs.Prelude.{◌≡◌, ◌<◌, [], true};
ghost use Rattle.std.specs.Borrow.{sem};
ghost use Rattle.mini_model.specs.Tree.{node, none, count, leaf, shape_of, children, node_count, node_counts};
ghost use Rattle.mini_node.specs.Children.{part, is_bare as is_it_bare, is_nameless as is_it_nameless, like, names, names_of, number_of, trees_of, with_names, with_number};
ghost use Rattle.mini_node.specs.Kinds.{is_named_leaf as is_it_named_leaf};
ghost use Rattle.mini_node.specs.Lends.{LendsChildren, LendsName, lent_name};

use crate::list::Nodes;
use mini_model::{Name, Shape};
use std::alloc::Global;
use std::marker::Model;
use std::mem;

/// A node of a syntax tree: a shape, which is its kind with its plain fields, a name where it has
/// one, a number where it has one, and its children. A contract sees the plain form.
#[cycle(nodes)]
pub struct Node {
    shape: Shape,
    name: Option<Name>,
    number: u32,
    children: Nodes,
}

// Time goes where memory goes: a node takes no more than this.
const _: () = prove!(mem::size_of::<Node>() <= 112);

impl Model for Node {
    ghost use Rattle.mini_model.specs.Tree.{Tree, tree_code, node};

    ghost Value = { Tree };

    ghost coded = { tree_code };

    ghost use Rattle.mini_node.specs.Children.{names, node_size};

    ghost view = { λ b. node b.shape (names b.name) b.number b.children };

    ghost size = { node_size };

    ghost use Rattle.std.proofs.Common.{arith};
    ghost use Rattle.mini_node.specs.Falls.{within-Node};

    ghost size_decreases = { λ b h. omega (arith, within-Node b.shape (names b.name) b.number b.children) };
}

impl Node {
    /// A node over these children, without name or number.
    pub fn new(shape: Shape, children: Nodes) -> Node
        ensures { result ≡ node shape [] 0 children }
    {
        Node {
            shape,
            name: None,
            number: 0,
            children,
        }
    }

    /// A node of this shape, name and number (0 for none) over these children.
    pub fn with(shape: Shape, name: Option<Name>, number: u32, children: Nodes) -> Node
        ensures { result ≡ node shape (names name) number children }
    {
        Node {
            shape,
            name,
            number,
            children,
        }
    }

    /// Takes the node apart: its shape, its name, its number and its children.
    pub fn into_parts(self) -> (Shape, Option<Name>, u32, Nodes)
        ensures shape { result.0 ≡ shape_of self }
        ensures name { names result.1 ≡ names_of self }
        ensures number { result.2 ≡ number_of self }
        ensures children { result.3 ≡ children self }
        ensures smaller { node_counts result.3 < node_count self }
    {
        let Node {
            shape,
            name,
            number,
            children,
        } = self;
        (shape, name, number, children)
    }

    /// The node over other children.
    pub fn over(self, children: Nodes) -> Node
        ensures { result ≡ like self children }
    {
        let (shape, name, number, _) = self.into_parts();
        Node::with(shape, name, number, children)
    }

    /// Takes the node's children out, and leaves it none.
    pub fn take_children(&mut self) -> Nodes
        ensures children { result ≡ children self.old }
        ensures smaller { node_counts result < node_count self.old }
        ensures rest { self.new ≡ like self.old none }
    {
        let alloc = self.children.allocator();
        mem::replace(&mut self.children, Nodes::new(alloc))
    }

    /// A node of this shape, without name, number or child.
    pub fn leaf(alloc: Global, shape: Shape) -> Node
        ensures { result ≡ leaf shape }
    {
        Node::new(shape, Nodes::new(alloc))
    }

    /// What kind of node it is, with its plain fields.
    pub fn shape(&self) -> &Shape
        ensures { result.now ≡ shape_of self.now }
    {
        &self.shape
    }

    /// The node's name, if it has one.
    pub fn name(&self) -> &Option<Name>
        ensures { names result.now ≡ names_of self.now }
    {
        &self.name
    }

    /// The node's name, if it has one, for writing.
    pub fn name_mut(&mut self) -> Option<&mut Name>
        ensures* writes_back { sem 𝓛 (LendsName self.entry result) }
        ensures value { names (lent_name result) ≡ names_of self.old }
    {
        self.name.as_mut()
    }

    /// Gives the node a name, or takes it away.
    pub fn set_name(&mut self, name: Option<Name>)
        ensures { self.new ≡ with_names self.old (names name) }
    {
        self.name = name;
    }

    /// The node's number, which is 0 where it has none.
    pub fn number(&self) -> u32
        ensures { result ≡ number_of self.now }
    {
        self.number
    }

    /// Gives the node a number; 0 takes it away.
    pub fn set_number(&mut self, number: u32)
        ensures { self.new ≡ with_number self.old number }
    {
        self.number = number;
    }

    /// The node's children, in order, as a slice.
    pub fn parts(&self) -> &[Node]
        ensures value { trees_of result.now ≡ children self.now }
        ensures smaller { node_counts (trees_of result.now) < node_count self.now }
    {
        self.children.as_slice()
    }

    /// The node's children.
    pub fn children(&self) -> &Nodes
        ensures { result.now ≡ children self.now }
    {
        &self.children
    }

    /// The node's children, for writing.
    pub fn children_mut(&mut self) -> &mut Nodes
        ensures* writes_back { sem 𝓛 (LendsChildren self.entry result) }
        ensures value { result.now ≡ children self.old }
    {
        &mut self.children
    }

    /// The node's children; the node itself is dropped.
    pub fn into_children(self) -> Nodes
        ensures value { result ≡ children self }
        ensures smaller { node_counts result < node_count self }
    {
        let (_, _, _, children) = self.into_parts();
        children
    }

    /// The child at a place, which is below the number of children.
    pub fn child(&self, at: usize) -> &Node
        requires { at < count (children self.now) }
        ensures value { result.now ≡ part self.now at }
        ensures smaller { node_count result.now < node_count self.now }
    {
        self.children.child(at)
    }

    /// Whether the node has neither name nor number.
    pub fn is_nameless(&self) -> bool
        ensures { result ≡ is_it_nameless self.now }
    {
        match self.name {
            None => self.number == 0,
            Some(_) => false,
        }
    }

    /// Whether the node has neither name nor number, and exactly that many children.
    #[tactic(auto, using(crate::proofs::Lists::bare_by, crate::proofs::Lists::same_count))]
    pub fn is_bare(&self, arity: usize) -> bool
        ensures kind { result ≡ is_it_bare self.now arity }
        ensures parts { result ≡ true → count (children self.now) ≡ arity }
    {
        self.is_nameless() && self.children.len() == arity
    }
}

impl Node {
    /// Whether the node has a name, no number and no child.
    #[tactic(auto, using(crate::proofs::Lists::named_by, crate::proofs::Lists::named_number))]
    pub fn is_named_leaf(&self) -> bool
        ensures { result ≡ is_it_named_leaf self.now }
    {
        self.name.is_some() && self.number == 0 && self.children.len() == 0
    }
}

impl Drop for Node {
    #[cycle(dropping)]
    fn drop(self) {
        let Node {
            shape,
            name,
            number: _,
            children,
        } = self;
        drop(shape);
        drop(name);
        drop(children);
    }
}

/// Drops a node.
pub fn discard(node: Node) {
    let _ = node;
}
