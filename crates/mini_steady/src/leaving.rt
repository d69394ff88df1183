//! What leaves the object of a member as it is, and what is evaluated first: `this` is left by all,
//! and a name by what neither declares nor writes it.

ghost use Rattle.std.specs.Prelude.{◌≡◌, ◌<◌, ◌≤◌, false};
ghost use Rattle.mini_model.specs.Tree.{children, count};
ghost use Rattle.mini_node.specs.Children.{first_children, names};
ghost use Rattle.mini_rows.specs.Members.{begins_at as begins_at_it, opens as opens_it};
ghost use Rattle.mini_rows.specs.Unused.{is_childless as is_it_childless};
ghost use Rattle.mini_steady.specs.Leaving as row;

use crate::bindings::binds;
use crate::writing::writes;
use mini_model::{Name, Shape, UnaryOperator};
use mini_node::{Node, Nodes, is_same_tree};

/// Whether it is `this`.
pub fn is_this(node: &Node) -> bool
    ensures { result ≡ row.is_this node.now }
{
    matches!(node.shape(), Shape::ThisExpression) && node.is_bare(0)
}

fn is_childless(node: &Node) -> bool
    ensures value { result ≡ is_it_childless node.now }
    ensures some { result ≡ false → 0 < count (children node.now) }
{
    node.children().len() == 0
}

// What evaluates its first part before all else.
fn opens(shape: &Shape, is_leaf: bool) -> bool
    ensures { result ≡ opens_it shape.now is_leaf }
{
    match shape {
        Shape::UnaryExpression(
            UnaryOperator::LogicalNot
            | UnaryOperator::UnaryPlus
            | UnaryOperator::UnaryNegation
            | UnaryOperator::BitwiseNot
            | UnaryOperator::Void,
        )
        | Shape::BinaryExpression(_)
        | Shape::LogicalExpression(_)
        | Shape::ConditionalExpression
        | Shape::NewExpression
        | Shape::StaticMemberExpression(_)
        | Shape::ComputedMemberExpression(_) => true,
        Shape::CallExpression(_) | Shape::ChainExpression => !is_leaf,
        _ => false,
    }
}

/// Whether what is evaluated before all else in a tree is this leaf.
#[tactic(auto, using(crate::proofs::LeftParts::begins_leaf, crate::proofs::LeftParts::begins_below, crate::proofs::LeftParts::first_smaller))]
pub fn begins_at(leaf: &Node, node: &Node) -> bool
    ensures { result ≡ begins_at_it leaf.now node.now }
{
    if is_childless(node) {
        return is_same_tree(leaf, node);
    }
    let first = node.child(0);
    opens(node.shape(), is_childless(first)) && begins_at(leaf, first)
}

// Whether a node neither declares nor writes the name, if there is one.
fn leaves_name(name: &Option<Name>, node: &Node) -> bool
    ensures { result ≡ row.leaves_name (names name.now) node.now }
{
    match name {
        Some(name) => match name.symbol {
            Some(symbol) => !binds(symbol, node) && !writes(name, node),
            None => false,
        },
        None => true,
    }
}

/// Whether a node neither declares nor writes the object, a name that a scope declares; an object
/// that is no name is left alone by every node.
pub fn leaves_object(object: &Node, node: &Node) -> bool
    ensures { result ≡ row.leaves_object object.now node.now }
{
    leaves_name(object.name(), node)
}

/// Whether the nodes before an index leave the object.
pub fn leave_before(object: &Node, nodes: &Nodes, end: usize) -> bool
    requires { end ≤ count nodes.now }
    ensures { result ≡ row.all_leave object.now (first_children end nodes.now) }
{
    for at in 0..end {
        if !leaves_object(object, nodes.child(at)) {
            return false;
        }
    }
    true
}
