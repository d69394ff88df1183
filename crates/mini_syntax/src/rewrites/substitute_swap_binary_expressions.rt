//! Row 54: `1 == b` becomes `b == 1`, of the four equalities, which is lighter in every seat.

ghost use Rattle.std.specs.Prelude.{◌≡◌, ◌==◌, is_some, unwrap_or, OnOk, IfOk};
ghost use Rattle.mini_model.specs.Tree.{shape_of};
ghost use Rattle.mini_model.specs.Position.{is_equality as is_it_equality};
ghost use Rattle.mini_node.specs.Children.{part};
ghost use Rattle.mini_node.specs.Kinds.{binary as binary_of};
ghost use Rattle.mini_syntax.specs.SubstituteSwapBinaryExpressions.{items as items_of, is_zero_shape as is_it_zero_shape, is_ready as is_it_ready, swapped_operator as its_swapped_operator, written};

use crate::forms::is_plain;
use mini_model::{BinaryOperator, OutOfMemory, Shape, UnaryOperator};
use mini_node::{Node, binary, binary_operator, taken, two};
use std::alloc::Global;

fn is_equality(operator: BinaryOperator) -> bool
    ensures { result ≡ is_it_equality operator }
{
    match operator {
        BinaryOperator::Equality
        | BinaryOperator::Inequality
        | BinaryOperator::StrictEquality
        | BinaryOperator::StrictInequality => true,
        _ => false,
    }
}

// How many items a list has.
fn items(node: &Node) -> usize
    ensures { result ≡ items_of node.now }
{
    match node.shape() {
        Shape::Listed => node.children().len(),
        _ => 0,
    }
}

// Whether a template has no expressions.
#[tactic(auto, using(crate::proofs::Parts::part_some, crate::proofs::Parts::part_none))]
fn has_no_expressions(node: &Node) -> bool
    ensures { result ≡ (items_of (part node.now 1) == 0) }
{
    match node.children().get(1) {
        Some(expressions) => items(expressions) == 0,
        None => true,
    }
}

fn is_zero_shape(shape: &Shape) -> bool
    ensures { result ≡ is_it_zero_shape shape.now }
{
    match shape {
        Shape::NumericLiteral(value) => *value == 0,
        _ => false,
    }
}

// Whether the operand is 0.
#[tactic(auto, using(crate::proofs::Parts::part_some, crate::proofs::Parts::part_none))]
fn is_over_zero(node: &Node) -> bool
    ensures { result ≡ is_it_zero_shape (shape_of (part node.now 0)) }
{
    match node.children().get(0) {
        Some(operand) => is_zero_shape(operand.shape()),
        None => false,
    }
}

// It may stand on the left as well as on the right.
fn is_ready(node: &Node) -> bool
    ensures { result ≡ is_it_ready node.now }
{
    match node.shape() {
        Shape::NumericLiteral(_)
        | Shape::StringLiteral(_)
        | Shape::BooleanLiteral(_)
        | Shape::NullLiteral
        | Shape::BigIntLiteral(_)
        | Shape::SequenceExpression
        | Shape::InnerExpression => false,
        Shape::TemplateLiteral => !has_no_expressions(node),
        Shape::UnaryExpression(UnaryOperator::Void) => !is_over_zero(node),
        _ => true,
    }
}

// The operator, where the sides swap.
fn swapped_operator(node: &Node) -> Option<BinaryOperator>
    ensures { result ≡ its_swapped_operator node.now }
{
    match binary_operator(node) {
        Some(operator)
            if is_equality(operator) && is_plain(node.child(0)) && is_ready(node.child(1)) => {
            Some(operator)
        }
        _ => None,
    }
}

// `b == 1`
fn swapped(alloc: Global, operator: BinaryOperator, node: Node) -> Result<Node, OutOfMemory>
    ensures { IfOk result (λ w. w ≡ binary_of operator (part node 1) (part node 0)) }
{
    let (left, right) = two(node);
    binary(alloc, operator, right, left)
}

/// `1 == b` becomes `b == 1`, where the left side of an equality is a value written out and the
/// right side isn't. The answer says whether it did; the only error is that memory runs out, and
/// then the expression is fit only to be dropped.
pub fn substitute_swap_binary_expressions(
    alloc: Global,
    node: &mut Node,
) -> Result<bool, OutOfMemory>
    ensures tree { OnOk result (node.new ≡ unwrap_or (written node.old) node.old) }
    ensures said { IfOk result (λ changed. changed ≡ is_some (written node.old)) }
{
    match swapped_operator(node) {
        Some(operator) => {
            *node = swapped(alloc, operator, taken(alloc, node))?;
            Ok(true)
        }
        None => Ok(false),
    }
}
