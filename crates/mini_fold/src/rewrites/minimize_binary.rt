//! Row 28: `a === b` becomes `a == b` where both sides are of one known Kind. It is lighter in
//! every seat.

ghost use Rattle.std.specs.Prelude.{◌≡◌, is_some, unwrap_or, IfSome};
ghost use Rattle.mini_model.specs.Tree.{children, count};
ghost use Rattle.mini_rows.specs.Folding as row;
ghost use Rattle.mini_fold.specs.MinimizeBinary.{loose_operator as its_loose_operator, written};

use mini_model::{BinaryOperator, Shape};
use mini_node::{Node, binary_operator, taken};
use mini_terms::has_one_kind;
use std::alloc::Global;

// `==` for `===`, and `!=` for `!==`
fn loosened(operator: BinaryOperator) -> Option<BinaryOperator>
    ensures { result ≡ row.loosened operator }
{
    match operator {
        BinaryOperator::StrictEquality => Some(BinaryOperator::Equality),
        BinaryOperator::StrictInequality => Some(BinaryOperator::Inequality),
        _ => None,
    }
}

// Of a strict equality the operator of the loose one.
fn loose_operator(node: &Node) -> Option<BinaryOperator>
    ensures operator { result ≡ its_loose_operator node.now }
    ensures parts { IfSome result (λ _. count (children node.now) ≡ 2) }
{
    match binary_operator(node) {
        Some(operator) => loosened(operator),
        None => None,
    }
}

/// A strict equality of two sides of one known Kind becomes a loose one. The answer says whether it
/// did.
pub fn minimize_binary(alloc: Global, node: &mut Node) -> bool
    ensures tree { node.new ≡ unwrap_or (written node.old) node.old }
    ensures said { result ≡ is_some (written node.old) }
{
    let Some(operator) = loose_operator(node) else {
        return false;
    };
    if !has_one_kind(node.child(0), node.child(1)) {
        return false;
    }
    *node = Node::new(
        Shape::BinaryExpression(operator),
        taken(alloc, node).into_children(),
    );
    true
}
