//! The negation of an expression, and the lighter of it and of `!` over the expression. Each
//! function that makes a node makes it of copies, and its only error is that memory runs out.

ghost use Rattle.std.specs.Prelude.{◌≡◌, IfOk};
ghost use Rattle.mini_model.specs.Position.{operand_seat};
ghost use Rattle.mini_model.specs.Terms.{neg, neg_each, not_of as lighter_of, is_boolean as always_boolean};
ghost use Rattle.mini_model.specs.Tree.{shape_of, negation as negation_tree};
ghost use Rattle.mini_recorded.specs.Negating as term;

use mini_checker::{copy_node, copy_nodes, copy_own_name, has_negated_result, is_lighter};
use mini_model::{
    BinaryOperator, LogicalOperator, OutOfMemory, Position, Seat, Shape, UnaryOperator,
};
use mini_node::{Node, Nodes, negation};
use mini_tree::seats;
use std::alloc::Global;

// Whether each value of the expression is a boolean.
#[tactic(auto, using(crate::proofs::Booleans::two_boolean, crate::proofs::Booleans::three_boolean, crate::proofs::Booleans::not_two_boolean, crate::proofs::Booleans::not_three_boolean))]
fn is_boolean(node: &Node) -> bool
    ensures { result ≡ always_boolean node.now }
{
    match node.shape() {
        Shape::UnaryExpression(UnaryOperator::LogicalNot) => true,
        Shape::LogicalExpression(_) => {
            node.children().len() == 2 && is_boolean(node.child(0)) && is_boolean(node.child(1))
        }
        Shape::ConditionalExpression => {
            node.children().len() == 3 && is_boolean(node.child(1)) && is_boolean(node.child(2))
        }
        _ => false,
    }
}

// The operator that a negation turns a logical expression's into, if it does.
fn turned_operator(node: &Node) -> Option<LogicalOperator>
    ensures { result ≡ term.turned_by (shape_of node.now) }
{
    match node.shape() {
        Shape::LogicalExpression(LogicalOperator::And) => Some(LogicalOperator::Or),
        Shape::LogicalExpression(LogicalOperator::Or) => Some(LogicalOperator::And),
        _ => None,
    }
}

// The operator that a negation turns an equality's into.
fn opposite_operator(node: &Node) -> Option<BinaryOperator>
    ensures { result ≡ term.opposite_by (shape_of node.now) }
{
    match node.shape() {
        Shape::BinaryExpression(BinaryOperator::Equality) => Some(BinaryOperator::Inequality),
        Shape::BinaryExpression(BinaryOperator::Inequality) => Some(BinaryOperator::Equality),
        Shape::BinaryExpression(BinaryOperator::StrictEquality) => {
            Some(BinaryOperator::StrictInequality)
        }
        Shape::BinaryExpression(BinaryOperator::StrictInequality) => {
            Some(BinaryOperator::StrictEquality)
        }
        _ => None,
    }
}

// Whether there is one child.
#[tactic(auto, using(crate::proofs::Negations::one_by_count))]
fn has_one(children: &Nodes) -> bool
    ensures { result ≡ term.has_one children.now }
{
    children.len() == 1
}

// Whether the expression is `!a`, and its negation a.
fn is_unwrapped(node: &Node, seat: Seat) -> bool
    ensures { result ≡ term.is_unwrapped seat node.now }
{
    has_negated_result(node)
        && (has_one(node.children()) && (seat.boolean || is_boolean(node.child(0))))
}

// The seat of the operand at a place.
fn operand(operator: LogicalOperator, seat: Seat, at: usize) -> Seat
    ensures { result ≡ operand_seat operator seat at }
{
    match at {
        0 => seats::left_operand(operator, seat),
        _ => seats::right_operand(operator, seat),
    }
}

// The negations of the operands of a logical expression of this operator.
#[cycle(negating)]
fn negated_operands(
    alloc: Global,
    operator: LogicalOperator,
    operands: &Nodes,
    seat: Seat,
) -> Result<Nodes, OutOfMemory>
    ensures { IfOk result (λ negated. negated ≡ neg_each (operand_seat operator seat) operands.now) }
{
    let mut negated = Nodes::with_capacity(alloc, operands.len())?;
    for at in 0..operands.len() {
        let stands = operand(operator, seat, at);
        negated.push(negation_of(alloc, operands.child(at), stands)?)?;
    }
    Ok(negated)
}

// The logical expression of this operator over the negated operands.
#[cycle(negating)]
fn turned(
    alloc: Global,
    operator: LogicalOperator,
    node: &Node,
    seat: Seat,
) -> Result<Node, OutOfMemory>
    ensures { IfOk result (λ w. w ≡ term.turned_over operator seat node.now) }
{
    let operands = negated_operands(alloc, operator, node.children(), seat)?;
    let name = copy_own_name(alloc, node.name())?;
    let shape = Shape::LogicalExpression(operator);
    Ok(Node::with(shape, name, node.number(), operands))
}

// The equality under another operator.
fn opposed(alloc: Global, operator: BinaryOperator, node: &Node) -> Result<Node, OutOfMemory>
    ensures { IfOk result (λ w. w ≡ term.opposed operator node.now) }
{
    let operands = copy_nodes(alloc, node.children())?;
    let name = copy_own_name(alloc, node.name())?;
    let shape = Shape::BinaryExpression(operator);
    Ok(Node::with(shape, name, node.number(), operands))
}

fn negation_over(alloc: Global, node: &Node) -> Result<Node, OutOfMemory>
    ensures { IfOk result (λ w. w ≡ negation_tree node.now) }
{
    let copy = copy_node(alloc, node)?;
    negation(alloc, copy)
}

// The negation of an expression, written in its seat.
#[cycle(negating)]
fn negation_of(alloc: Global, node: &Node, seat: Seat) -> Result<Node, OutOfMemory>
    ensures { IfOk result (λ w. w ≡ neg seat node.now) }
{
    if let Some(operator) = turned_operator(node) {
        return turned(alloc, operator, node, seat);
    }
    if let Some(operator) = opposite_operator(node) {
        return opposed(alloc, operator, node);
    }
    if is_unwrapped(node, seat) {
        return copy_node(alloc, node.child(0));
    }
    negation_over(alloc, node)
}

/// The lighter of the negation of an expression and of `!` over it, written in its seat, and the
/// negation where both weigh the same. Memory counts as run out where one of them weighs 2^64 - 1
/// or more.
pub fn not_of(alloc: Global, node: &Node, seat: Seat) -> Result<Node, OutOfMemory>
    ensures { IfOk result (λ w. w ≡ lighter_of seat node.now) }
{
    let other = negation_of(alloc, node, seat)?;
    let not = negation_over(alloc, node)?;
    if is_lighter(&not, &other, Position::Expr(seat))? {
        Ok(not)
    } else {
        Ok(other)
    }
}
