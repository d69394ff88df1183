//! Row 35: `x = x + b` becomes `x += b`, and `x.k = x.k + b` `x.k += b`, and so of the other
//! operators of numbers, which is lighter in every seat.

ghost use Rattle.std.specs.Prelude.{◌≡◌, is_some, unwrap_or, OnOk, IfOk};
ghost use Rattle.mini_rows.specs.Choices.{computing as computing_of};
ghost use Rattle.mini_choices.specs.MinimizeNormalAssignmentToCombinedAssignment.{computing_in as computing_in_it, combined_operator as its_combined_operator, combined as combined_of, written};

use crate::assigning::{assigns_plainly, is_same_target};
use mini_model::{AssignmentOperator, BinaryOperator, OutOfMemory};
use mini_node::{Node, assignment, binary_operator, discard, taken, two};
use std::alloc::Global;

/// The operator of the assignment of what this one makes of the old value, if there is one.
pub fn computing(operator: BinaryOperator) -> Option<AssignmentOperator>
    ensures { result ≡ computing_of operator }
{
    match operator {
        BinaryOperator::Addition => Some(AssignmentOperator::Addition),
        BinaryOperator::Subtraction => Some(AssignmentOperator::Subtraction),
        BinaryOperator::Multiplication => Some(AssignmentOperator::Multiplication),
        BinaryOperator::Division => Some(AssignmentOperator::Division),
        BinaryOperator::Remainder => Some(AssignmentOperator::Remainder),
        BinaryOperator::Exponential => Some(AssignmentOperator::Exponential),
        BinaryOperator::ShiftLeft => Some(AssignmentOperator::ShiftLeft),
        BinaryOperator::ShiftRight => Some(AssignmentOperator::ShiftRight),
        BinaryOperator::ShiftRightZeroFill => Some(AssignmentOperator::ShiftRightZeroFill),
        BinaryOperator::BitwiseAnd => Some(AssignmentOperator::BitwiseAnd),
        BinaryOperator::BitwiseXor => Some(AssignmentOperator::BitwiseXor),
        BinaryOperator::BitwiseOr => Some(AssignmentOperator::BitwiseOr),
        _ => None,
    }
}

// The operator of the `x += b` that is written for `x = x + b`.
fn combined_operator(node: &Node) -> Option<AssignmentOperator>
    ensures { result ≡ its_combined_operator node.now }
{
    if !assigns_plainly(node) {
        return None;
    }
    match binary_operator(node.child(1)) {
        Some(operator) if is_same_target(node.child(0), node.child(1).child(0)) => {
            computing(operator)
        }
        _ => None,
    }
}

/// `x += b` of `x = x + b`, whatever is assigned to. The only error is that memory runs out.
pub fn combined(
    alloc: Global,
    operator: AssignmentOperator,
    node: Node,
) -> Result<Node, OutOfMemory>
    ensures { IfOk result (λ w. w ≡ combined_of operator node) }
{
    let (target, value) = two(node);
    let (old, right) = two(value);
    discard(old);
    assignment(alloc, operator, target, right)
}

/// `x = x + b` becomes `x += b`, and `x.k = x.k + b` `x.k += b` where a scope declares x, and so of
/// the other operators of numbers. The answer says whether it did; the only error is that memory
/// runs out, and then the expression is fit only to be dropped.
pub fn minimize_normal_assignment_to_combined_assignment(
    alloc: Global,
    node: &mut Node,
) -> Result<bool, OutOfMemory>
    ensures tree { OnOk result (node.new ≡ unwrap_or (written node.old) node.old) }
    ensures said { IfOk result (λ changed. changed ≡ is_some (written node.old)) }
{
    match combined_operator(node) {
        Some(operator) => {
            *node = combined(alloc, operator, taken(alloc, node))?;
            Ok(true)
        }
        None => Ok(false),
    }
}
