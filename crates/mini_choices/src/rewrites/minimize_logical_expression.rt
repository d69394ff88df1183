//! Row 38: `x || (x = b)` becomes `x ||= b`, and so of `&&` and `??`, which is lighter in every
//! seat.

ghost use Rattle.std.specs.Prelude.{◌≡◌, is_some, unwrap_or, OnOk, IfOk};
ghost use Rattle.mini_node.specs.Children.{part};
ghost use Rattle.mini_rows.specs.Choices.{deciding as deciding_of};
ghost use Rattle.mini_choices.specs.MinimizeLogicalExpression.{deciding_operator as its_deciding_operator, decided as decided_of, written};

use crate::assigning::{assigns_name, is_same_name};
use mini_model::{AssignmentOperator, LogicalOperator, OutOfMemory};
use mini_node::{Node, assignment, discard, logical_operator, taken, two};
use std::alloc::Global;

/// The operator of the assignment that a logical operator decides on.
pub fn deciding(operator: LogicalOperator) -> AssignmentOperator
    ensures { result ≡ deciding_of operator }
{
    match operator {
        LogicalOperator::Or => AssignmentOperator::LogicalOr,
        LogicalOperator::And => AssignmentOperator::LogicalAnd,
        LogicalOperator::Coalesce => AssignmentOperator::LogicalNullish,
    }
}

// The operator of `x || (x = b)`.
fn deciding_operator(node: &Node) -> Option<LogicalOperator>
    ensures { result ≡ its_deciding_operator node.now }
{
    match logical_operator(node) {
        Some(operator)
            if assigns_name(node.child(1)) && is_same_name(node.child(0), node.child(1).child(0)) =>
            { Some(operator) }
        _ => None,
    }
}

/// `x ||= b` of `x || (x = b)`, whatever is assigned to. The only error is that memory runs out.
pub fn decided(alloc: Global, operator: LogicalOperator, node: Node) -> Result<Node, OutOfMemory>
    ensures { IfOk result (λ w. w ≡ decided_of operator (part node 1)) }
{
    let (left, right) = two(node);
    discard(left);
    let (target, value) = two(right);
    assignment(alloc, deciding(operator), target, value)
}

/// `x || (x = b)` becomes `x ||= b`, and so of `&&` and `??`. The answer says whether it did; the
/// only error is that memory runs out, and then the expression is fit only to be dropped.
pub fn minimize_logical_expression(alloc: Global, node: &mut Node) -> Result<bool, OutOfMemory>
    ensures tree { OnOk result (node.new ≡ unwrap_or (written node.old) node.old) }
    ensures said { IfOk result (λ changed. changed ≡ is_some (written node.old)) }
{
    match deciding_operator(node) {
        Some(operator) => {
            *node = decided(alloc, operator, taken(alloc, node))?;
            Ok(true)
        }
        None => Ok(false),
    }
}
