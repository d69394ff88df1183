//! Row 38 of a sequence: `x || (a, x = b)` becomes `x ||= (a, b)`, and so of `&&` and `??`, where
//! an assignment has no parentheses that the operator hasn't.

ghost use Rattle.std.specs.Prelude.{◌≡◌, ◌<◌, Some, true, is_some, unwrap_or, OnOk, IfOk, IfSome};
ghost use Rattle.mini_model.specs.Tree.{children, count};
ghost use Rattle.mini_model.specs.Weight.{is_parenthesized as in_parentheses};
ghost use Rattle.mini_model.specs.declared.shape.Shape.TheVariants.{LogicalExpression};
ghost use Rattle.mini_node.specs.Children.{part};
ghost use Rattle.mini_rows.specs.Choices.{keeps_parentheses as keeps_its_parentheses};
ghost use Rattle.mini_choices.specs.MinimizeLogicalSequence.{last_place as its_last_place, are_several as are_there_several, assigns_last as they_assign_last, parts_of, deciding_operator as its_deciding_operator, with_value as with_its_value, decided as decided_of, written};

use crate::assigning::{assigns_name, is_same_name};
use crate::rewrites::minimize_logical_expression::deciding;
use mini_model::{LogicalOperator, Mix, OutOfMemory, Seat};
use mini_node::{
    Node, Nodes, absent, assignment, discard, is_sequence, logical_operator, one, sequence, taken,
    two,
};
use mini_tree::seats;
use std::alloc::Global;

// The level of an assignment.
const ASSIGNMENT_LEVEL: u8 = 1;

// Whether an expression of this operator wants parentheses in the seat.
fn is_parenthesized(operator: LogicalOperator, seat: Seat) -> bool
    ensures { result ≡ in_parentheses (LogicalExpression operator) seat }
{
    let mixes = match (operator, seat.mix) {
        (LogicalOperator::Coalesce, Mix::InAndOr) => true,
        (LogicalOperator::Or, Mix::InCoalesce) => true,
        (LogicalOperator::And, Mix::InCoalesce) => true,
        _ => false,
    };
    seats::level_of_operator(operator) < seat.level || mixes
}

/// Whether an assignment has parentheses in the seat only where the operator has them, too.
#[tactic(auto, using(crate::proofs::LogicalSequence::kept_by))]
pub fn keeps_parentheses(operator: LogicalOperator, seat: Seat) -> bool
    ensures { result ≡ keeps_its_parentheses operator seat }
{
    seat.level <= ASSIGNMENT_LEVEL || is_parenthesized(operator, seat)
}

/// Whether there are two at least.
pub fn are_several(nodes: &Nodes) -> bool
    ensures kind { result ≡ are_there_several nodes.now }
    ensures parts { result ≡ true → 1 < count nodes.now }
{
    nodes.len() > 1
}

/// The place of the last.
#[tactic(auto, using(crate::proofs::LogicalSequence::last_is))]
pub fn last_place(nodes: &Nodes) -> usize
    requires { 0 < count nodes.now }
    ensures place { result ≡ its_last_place nodes.now }
    ensures within { result < count nodes.now }
{
    nodes.len() - 1
}

// Whether the last of the parts assigns to this name.
fn assigns_last(name: &Node, parts: &Nodes) -> bool
    ensures kind { result ≡ they_assign_last name.now parts.now }
    ensures parts { result ≡ true → 0 < count parts.now }
{
    if !are_several(parts) {
        return false;
    }
    let last = parts.child(last_place(parts));
    assigns_name(last) && is_same_name(name, last.child(0))
}

// The operator of `x || (a, x = b)`.
fn deciding_operator(node: &Node, seat: Seat) -> Option<LogicalOperator>
    ensures operator { result ≡ its_deciding_operator seat node.now }
    ensures parts { IfSome result (λ o. 0 < count (parts_of node.now)) }
{
    match logical_operator(node) {
        Some(operator)
            if keeps_parentheses(operator, seat)
                && is_sequence(node.child(1))
                && assigns_last(node.child(0), node.child(1).child(0).children()) => {
            Some(operator)
        }
        _ => None,
    }
}

// The parts with the value of the last, which is assigned, in its place.
#[tactic(auto, using(crate::proofs::LogicalSequence::put_twice, mini_node::specs::Walks::count_with))]
fn put_value(alloc: Global, parts: &mut Nodes)
    requires { 0 < count parts.old }
    ensures { parts.new ≡ with_its_value parts.old }
{
    let at = last_place(parts);
    let last = parts.replace(at, absent(alloc));
    let (target, value) = two(last);
    discard(target);
    discard(parts.replace(at, value));
}

/// `x ||= (a, b)` of `x || (a, x = b)`, whatever is assigned to. The only error is that memory runs
/// out.
pub fn decided_last(
    alloc: Global,
    operator: LogicalOperator,
    node: Node,
) -> Result<Node, OutOfMemory>
    requires { 0 < count (parts_of node) }
    ensures { IfOk result (λ w. w ≡ decided_of operator node) }
{
    let (target, right) = two(node);
    let mut parts = one(right).into_children();
    put_value(alloc, &mut parts);
    let value = sequence(alloc, parts)?;
    assignment(alloc, deciding(operator), target, value)
}

/// `x || (a, x = b)` becomes `x ||= (a, b)`, and so of `&&` and `??`, where an assignment has no
/// parentheses in the seat that the operator hasn't. The answer says whether it did; the only error
/// is that memory runs out, and then the expression is fit only to be dropped.
pub fn minimize_logical_sequence(
    alloc: Global,
    node: &mut Node,
    seat: Seat,
) -> Result<bool, OutOfMemory>
    ensures tree { OnOk result (node.new ≡ unwrap_or (written seat node.old) node.old) }
    ensures said { IfOk result (λ changed. changed ≡ is_some (written seat node.old)) }
{
    match deciding_operator(node, seat) {
        Some(operator) => {
            *node = decided_last(alloc, operator, taken(alloc, node))?;
            Ok(true)
        }
        None => Ok(false),
    }
}
