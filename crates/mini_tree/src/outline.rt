//! What the weight of a node reads of its children.

ghost use Rattle.std.specs.Prelude.{◌≡◌, length};
ghost use Rattle.mini_model.specs.Tree.{count};
ghost use Rattle.mini_model.specs.Weight.{outline, outlines, nth_is_absent, nth_items, first_is_zero, first_chooses, one_chooses};

use mini_model::Shape;
use mini_node::{Node, Nodes};

/// Children as the weight of the node above them reads them, be they there or not made yet.
pub trait Outlined {
    ghost use Rattle.std.specs.Prelude.{List};
    ghost use Rattle.mini_model.specs.Weight.{Outline};

    /// What the weight of a node reads of these children: an outline of each.
    ghost below: { Self → List Outline };

    /// How many children there are.
    fn how_many(&self) -> usize
        ensures { result ≡ length (below self.now) };

    /// Whether the child at a place is absent.
    fn is_absent(&self, at: usize) -> bool
        ensures { result ≡ nth_is_absent (below self.now) at };

    /// How many items the list at a place has; 0 of another child.
    fn items(&self, at: usize) -> usize
        ensures { result ≡ nth_items (below self.now) at };

    /// Whether the first child is the literal 0.
    fn is_zero_first(&self) -> bool
        ensures { result ≡ first_is_zero (below self.now) };

    /// Whether the first child is an `if` with `else`, or a list of one such alone.
    fn chooses_first(&self) -> bool
        ensures { result ≡ first_chooses (below self.now) };
}

impl Outlined for Nodes {
    ghost below = { outlines };

    #[tactic(auto, using(crate::proofs::Outlines::length_outlines))]
    fn how_many(&self) -> usize {
        self.len()
    }

    fn is_absent(&self, at: usize) -> bool {
        is_absent_at(self, at)
    }

    fn items(&self, at: usize) -> usize {
        items_at(self, at)
    }

    fn is_zero_first(&self) -> bool {
        is_first_zero(self)
    }

    fn chooses_first(&self) -> bool {
        first_choice(self)
    }
}

fn is_hole(node: &Node) -> bool
    ensures { result ≡ (outline node.now).absent }
{
    matches!(node.shape(), Shape::Absent)
}

// Whether the child at a place is absent.
#[tactic(auto, using(crate::proofs::Outlines::nth_absent))]
fn is_absent_at(children: &Nodes, at: usize) -> bool
    ensures { result ≡ nth_is_absent (outlines children.now) at }
{
    match children.get(at) {
        None => true,
        Some(child) => is_hole(child),
    }
}

// How many items a list has; 0 of another node.
#[tactic(auto, using(crate::proofs::Outlines::length_outlines))]
fn listed_items(node: &Node) -> usize
    ensures { result ≡ (outline node.now).items }
{
    match node.shape() {
        Shape::Listed => node.children().len(),
        _ => 0,
    }
}

// How many items the list at a place has.
#[tactic(auto, using(crate::proofs::Outlines::nth_count))]
fn items_at(children: &Nodes, at: usize) -> usize
    ensures { result ≡ nth_items (outlines children.now) at }
{
    match children.get(at) {
        None => 0,
        Some(child) => listed_items(child),
    }
}

fn is_zero(node: &Node) -> bool
    ensures { result ≡ (outline node.now).is_zero }
{
    match node.shape() {
        Shape::NumericLiteral(value) => *value == 0,
        _ => false,
    }
}

// Whether the first child is the literal 0.
#[tactic(auto, using(crate::proofs::Outlines::first_zero))]
fn is_first_zero(children: &Nodes) -> bool
    ensures { result ≡ first_is_zero (outlines children.now) }
{
    match children.get(0) {
        None => false,
        Some(child) => is_zero(child),
    }
}

// Whether the node is an `if` with `else`, or a list of one such alone.
#[cycle(choosing)]
fn chooses(node: &Node) -> bool
    ensures { result ≡ (outline node.now).chooses }
{
    match node.shape() {
        Shape::Listed => one_choice(node.children()),
        Shape::IfStatement => !is_absent_at(node.children(), 2),
        _ => false,
    }
}

#[cycle(choosing)]
#[tactic(auto, using(crate::proofs::Outlines::one_chooses_of_many))]
fn one_choice(children: &Nodes) -> bool
    ensures { result ≡ one_chooses (outlines children.now) }
{
    match children.as_slice() {
        [only] => chooses(only),
        _ => false,
    }
}

// Whether the first child is an `if` with `else`, or a list of one such alone.
#[tactic(auto, using(crate::proofs::Outlines::first_choice))]
fn first_choice(children: &Nodes) -> bool
    ensures { result ≡ first_chooses (outlines children.now) }
{
    match children.get(0) {
        None => false,
        Some(child) => chooses(child),
    }
}
