//! Row 36: `t -= 1` becomes `--t`, and `t -= -1` becomes `++t`. It is lighter in every seat.

ghost use Rattle.std.specs.Prelude.{◌≡◌, true, is_some, unwrap_or, OnOk, IfOk};
ghost use Rattle.mini_model.specs.Tree.{children, child_or_absent, count};
ghost use Rattle.mini_node.specs.Kinds.{number as number_in, assignment_operator as operator_of};
ghost use Rattle.mini_rows.specs.Spellings.{steps};
ghost use Rattle.mini_syntax.specs.MinimizeAssignmentToUpdateExpression.{step_in, is_subtraction as subtracts, step_of as its_step, written};

use mini_model::{AssignmentOperator, OutOfMemory, Shape, UpdateOperator};
use mini_node::{Node, assignment_operator, discard, number, of_one, taken, two};
use std::alloc::Global;

// The operator by which a target steps from which this is subtracted.
fn step_by(node: &Node) -> Option<UpdateOperator>
    ensures { result ≡ step_in (number_in node.now) }
{
    match number(node) {
        Some(1) => Some(UpdateOperator::Decrement),
        Some(-1) => Some(UpdateOperator::Increment),
        _ => None,
    }
}

// `t -= b`
fn is_subtraction(node: &Node) -> bool
    ensures kind { result ≡ subtracts (operator_of node.now) }
    ensures parts { result ≡ true → count (children node.now) ≡ 2 }
{
    matches!(
        assignment_operator(node),
        Some(AssignmentOperator::Subtraction)
    )
}

// The operator by which the target of `t -= 1` steps.
fn step_of(node: &Node) -> Option<UpdateOperator>
    ensures step { result ≡ its_step node.now }
    ensures parts { is_some result ≡ true → count (children node.now) ≡ 2 }
{
    if !is_subtraction(node) {
        return None;
    }
    step_by(node.child(1))
}

// `--t`, or `++t`, of what the subtraction is from.
fn stepped(alloc: Global, operator: UpdateOperator, node: Node) -> Result<Node, OutOfMemory>
    requires { count (children node) ≡ 2 }
    ensures { IfOk result (λ w. w ≡ steps operator (child_or_absent (children node) 0)) }
{
    let (target, amount) = two(node);
    discard(amount);
    Ok(Node::new(
        Shape::UpdateExpression(operator, true),
        of_one(alloc, target)?,
    ))
}

/// `t -= 1` becomes `--t`, and `t -= -1` becomes `++t` (ECMA-262, "Update Expressions"), whatever t
/// is. The answer says whether it did; the only error is that memory runs out, and then the
/// expression is fit only to be dropped.
pub fn minimize_assignment_to_update_expression(
    alloc: Global,
    node: &mut Node,
) -> Result<bool, OutOfMemory>
    ensures tree { OnOk result (node.new ≡ unwrap_or (written node.old) node.old) }
    ensures said { IfOk result (λ changed. changed ≡ is_some (written node.old)) }
{
    match step_of(node) {
        Some(operator) => {
            *node = stepped(alloc, operator, taken(alloc, node))?;
            Ok(true)
        }
        None => Ok(false),
    }
}
