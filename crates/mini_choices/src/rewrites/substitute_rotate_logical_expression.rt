//! Row 39: `a && (b && c)` becomes `a && b && c`, and so of `||` and `??`, however many operands
//! stand on the right, which is lighter in every seat.

ghost use Rattle.std.specs.Prelude.{◌≡◌, is_some, unwrap_or, OnOk, IfOk};
ghost use Rattle.mini_rows.specs.Choices.{is_same_operator as are_one_operator, is_grouped as is_it_grouped};
ghost use Rattle.mini_choices.specs.SubstituteRotateLogicalExpression.{leftmost, rotated_over as rotated_over_it, rotated_operator as its_rotated_operator, rotated as rotated_of, written};

use mini_model::{LogicalOperator, OutOfMemory, Shape};
use mini_node::{Node, is_logical, logical, logical_operator, taken, two};
use std::alloc::Global;

fn is_same_operator(first: LogicalOperator, second: LogicalOperator) -> bool
    ensures { result ≡ are_one_operator first second }
{
    match (first, second) {
        (LogicalOperator::Or, LogicalOperator::Or) => true,
        (LogicalOperator::And, LogicalOperator::And) => true,
        (LogicalOperator::Coalesce, LogicalOperator::Coalesce) => true,
        _ => false,
    }
}

// Whether it is an expression of the operator, or an inner expression.
fn is_grouped(operator: LogicalOperator, node: &Node) -> bool
    ensures { result ≡ is_it_grouped operator node.now }
{
    match node.shape() {
        Shape::LogicalExpression(own) => is_same_operator(*own, operator),
        Shape::InnerExpression => true,
        _ => false,
    }
}

// Whether the first of the operands that the operator joins is grouped.
#[tactic(auto, using(crate::proofs::Spines::leftmost_below, crate::proofs::Spines::leftmost_there))]
fn begins_grouped(operator: LogicalOperator, node: &Node) -> bool
    ensures { result ≡ is_it_grouped operator (leftmost operator node.now) }
{
    if is_logical(node, operator) {
        begins_grouped(operator, node.child(0))
    } else {
        is_grouped(operator, node)
    }
}

// The operator of `a && (b && c)`.
fn rotated_operator(node: &Node) -> Option<LogicalOperator>
    ensures { result ≡ its_rotated_operator node.now }
{
    match logical_operator(node) {
        Some(operator)
            if is_logical(node.child(1), operator)
                && !begins_grouped(operator, node.child(1).child(0)) => { Some(operator) }
        _ => None,
    }
}

// a, and after it the operands that the operator joins
#[tactic(auto, using(crate::proofs::Spines::over_below, crate::proofs::Spines::over_there, crate::proofs::Spines::first_within))]
fn rotated_over(
    alloc: Global,
    operator: LogicalOperator,
    first: Node,
    operands: Node,
) -> Result<Node, OutOfMemory>
    ensures { IfOk result (λ w. w ≡ rotated_over_it operator first operands) }
{
    if !is_logical(&operands, operator) {
        return logical(alloc, operator, first, operands);
    }
    let (left, last) = two(operands);
    let joined = rotated_over(alloc, operator, first, left)?;
    logical(alloc, operator, joined, last)
}

// `a && b && c`
fn rotated(alloc: Global, operator: LogicalOperator, node: Node) -> Result<Node, OutOfMemory>
    ensures { IfOk result (λ w. w ≡ rotated_of operator node) }
{
    let (left, right) = two(node);
    let (middle, last) = two(right);
    let first = rotated_over(alloc, operator, left, middle)?;
    logical(alloc, operator, first, last)
}

/// `a && (b && c)` becomes `a && b && c`, and so of `||` and `??`, however many operands stand on
/// the right. The answer says whether it did; the only error is that memory runs out, and then the
/// expression is fit only to be dropped.
pub fn substitute_rotate_logical_expression(
    alloc: Global,
    node: &mut Node,
) -> Result<bool, OutOfMemory>
    ensures tree { OnOk result (node.new ≡ unwrap_or (written node.old) node.old) }
    ensures said { IfOk result (λ changed. changed ≡ is_some (written node.old)) }
{
    match rotated_operator(node) {
        Some(operator) => {
            *node = rotated(alloc, operator, taken(alloc, node))?;
            Ok(true)
        }
        None => Ok(false),
    }
}
