//! Terms of the rewrites: the negation of an expression, and its weight.

ghost use Rattle.std.specs.Prelude.{◌≡◌, ◌+◌, ◌≤◌, Some, OnOk, IfOk};
ghost use Rattle.mini_model.specs.declared.shape.Shape.TheVariants.{BinaryExpression, LogicalExpression};
ghost use Rattle.mini_model.specs.declared.place.Position.TheVariants.{Expr};
ghost use Rattle.mini_model.specs.Position.{operand_seat};
ghost use Rattle.mini_model.specs.Weight.{capped, is_parenthesized as in_parentheses, parentheses, weight as weight_at};
ghost use Rattle.mini_model.specs.Terms.{neg, neg_each, has_negated_result as has_a_negated_result, is_boolean as always_boolean};
ghost use Rattle.mini_model.specs.Tree.{shape_of};
ghost use Rattle.mini_logic.specs.Negating.{has_one as has_one_tree, turned_by, turned_over, opposite_by, reshaped as reshaped_tree, unequal_weight as weight_of_unequal, lighter_negation as lighter_negation_of, is_unwrapped as is_it_unwrapped, has_own_negation as has_an_own_negation};

use mini_model::{
    BinaryOperator, LogicalOperator, Mix, OutOfMemory, Position, Seat, Shape, UnaryOperator,
};
use mini_node::{Node, Nodes, discard, negation, one, taken};
use mini_tree::{negation_weight, seats, weight};
use std::alloc::Global;

/// Whether the expression is a `!`.
pub fn is_not(node: &Node) -> bool
    ensures { result ≡ has_a_negated_result node.now }
{
    matches!(
        node.shape(),
        Shape::UnaryExpression(UnaryOperator::LogicalNot)
    )
}

/// Whether each value of the expression is a boolean.
#[tactic(auto, using(crate::proofs::Booleans::two_boolean, crate::proofs::Booleans::three_boolean, crate::proofs::Booleans::not_two_boolean, crate::proofs::Booleans::not_three_boolean))]
pub fn is_boolean(node: &Node) -> bool
    ensures { result ≡ always_boolean node.now }
{
    match node.shape() {
        Shape::UnaryExpression(UnaryOperator::LogicalNot) => true,
        Shape::LogicalExpression(_) => {
            node.children().len() == 2 && is_boolean(node.child(0)) && is_boolean(node.child(1))
        }
        Shape::ConditionalExpression => {
            node.children().len() == 3 && is_boolean(node.child(1)) && is_boolean(node.child(2))
        }
        _ => false,
    }
}

/// Whether there is one child.
#[tactic(auto, using(crate::proofs::Negations::one_by_count))]
pub fn has_one(children: &Nodes) -> bool
    ensures { result ≡ has_one_tree children.now }
{
    children.len() == 1
}

// The operator that a negation turns a logical expression's into, if it does.
fn turned_operator(node: &Node) -> Option<LogicalOperator>
    ensures { result ≡ turned_by (shape_of node.now) }
{
    match node.shape() {
        Shape::LogicalExpression(LogicalOperator::And) => Some(LogicalOperator::Or),
        Shape::LogicalExpression(LogicalOperator::Or) => Some(LogicalOperator::And),
        _ => None,
    }
}

// The operator that a negation turns an equality's into.
fn opposite_operator(node: &Node) -> Option<BinaryOperator>
    ensures { result ≡ opposite_by (shape_of node.now) }
{
    match node.shape() {
        Shape::BinaryExpression(BinaryOperator::Equality) => Some(BinaryOperator::Inequality),
        Shape::BinaryExpression(BinaryOperator::Inequality) => Some(BinaryOperator::Equality),
        Shape::BinaryExpression(BinaryOperator::StrictEquality) => {
            Some(BinaryOperator::StrictInequality)
        }
        Shape::BinaryExpression(BinaryOperator::StrictInequality) => {
            Some(BinaryOperator::StrictEquality)
        }
        _ => None,
    }
}

// Whether the expression is `!a`, and its negation a.
fn is_unwrapped(node: &Node, seat: Seat) -> bool
    ensures { result ≡ is_it_unwrapped seat node.now }
{
    is_not(node) && has_one(node.children()) && (seat.boolean || is_boolean(node.child(0)))
}

// The seat of the operand at a place.
fn operand(operator: LogicalOperator, seat: Seat, at: usize) -> Seat
    ensures { result ≡ operand_seat operator seat at }
{
    match at {
        0 => seats::left_operand(operator, seat),
        _ => seats::right_operand(operator, seat),
    }
}

// Whether an expression of this operator wants parentheses in the seat.
fn is_parenthesized(operator: LogicalOperator, seat: Seat) -> bool
    ensures { result ≡ in_parentheses (LogicalExpression operator) seat }
{
    let mixes = match (operator, seat.mix) {
        (LogicalOperator::Coalesce, Mix::InAndOr) => true,
        (LogicalOperator::Or, Mix::InCoalesce) => true,
        (LogicalOperator::And, Mix::InCoalesce) => true,
        _ => false,
    };
    seats::level_of_operator(operator) < seat.level || mixes
}

/// What a logical expression weighs in the seat besides its operands.
pub fn own_weight(operator: LogicalOperator, seat: Seat) -> u64
    ensures { result ≡ 4 + parentheses (LogicalExpression operator) seat }
{
    if is_parenthesized(operator, seat) {
        8
    } else {
        4
    }
}

// The weight of the logical expression of this operator over the negated operands.
#[cycle(weighing)]
fn turned_weight(operator: LogicalOperator, expression: &Node, seat: Seat) -> u64
    ensures { result ≡ capped (weight_at (Expr seat) (turned_over operator seat expression.now)) }
{
    let mut total = own_weight(operator, seat);
    let mut at = 0;
    for child in expression.parts() {
        total = total.saturating_add(neg_weight(child, operand(operator, seat, at)));
        at += 1;
    }
    total
}

// What an inequality weighs more as the test of a conditional.
fn unequal_weight(operator: BinaryOperator, seat: Seat) -> u64
    ensures { result ≡ weight_of_unequal operator seat }
{
    let is_unequal = matches!(
        operator,
        BinaryOperator::Inequality | BinaryOperator::StrictInequality
    );
    if seat.cond_test && is_unequal { 1 } else { 0 }
}

// The weight of an equality under the operator that a negation turns its own into.
#[tactic(auto, using(crate::proofs::Weights::opposite_weighs))]
fn opposite_weight(operator: BinaryOperator, expression: &Node, seat: Seat) -> u64
    requires { opposite_by (shape_of expression.now) ≡ Some operator }
    ensures { result ≡ capped (weight_at (Expr seat) (reshaped_tree (BinaryExpression operator) expression.now)) }
{
    let untested = Seat {
        cond_test: false,
        ..seat
    };
    weight(expression, Position::Expr(untested)).saturating_add(unequal_weight(operator, seat))
}

/// The weight of the negation of an expression, written in its seat, which stays at the greatest
/// u64.
#[cycle(weighing)]
pub fn neg_weight(expression: &Node, seat: Seat) -> u64
    ensures { result ≡ capped (weight_at (Expr seat) (neg seat expression.now)) }
{
    if let Some(operator) = turned_operator(expression) {
        return turned_weight(operator, expression, seat);
    }
    if let Some(operator) = opposite_operator(expression) {
        return opposite_weight(operator, expression, seat);
    }
    if is_unwrapped(expression, seat) {
        return weight(expression.child(0), Position::Expr(seat));
    }
    negation_weight(expression, seat)
}

/// Whether the negation of an expression is more than a `!` before it.
pub fn has_own_negation(expression: &Node, seat: Seat) -> bool
    ensures { result ≡ has_an_own_negation seat expression.now }
{
    turned_operator(expression).is_some()
        || opposite_operator(expression).is_some()
        || is_unwrapped(expression, seat)
}

// The node with another shape.
fn reshaped(expression: Node, shape: Shape) -> Node
    ensures { result ≡ reshaped_tree shape expression }
{
    let (_, name, number, children) = expression.into_parts();
    Node::with(shape, name, number, children)
}

// Negates each operand of a logical expression of this operator.
#[cycle(negating)]
fn negate_each(
    alloc: Global,
    operator: LogicalOperator,
    operands: &mut Nodes,
    seat: Seat,
) -> Result<(), OutOfMemory>
    ensures { OnOk result (operands.new ≡ neg_each (operand_seat operator seat) operands.old) }
{
    for at in 0..operands.len() {
        let operand_at = taken(alloc, operands.child_mut(at));
        let other = negated(alloc, operand_at, operand(operator, seat, at))?;
        discard(operands.replace(at, other));
    }
    Ok(())
}

// The logical expression of this operator over the negated operands.
#[cycle(negating)]
fn turned(
    alloc: Global,
    operator: LogicalOperator,
    mut expression: Node,
    seat: Seat,
) -> Result<Node, OutOfMemory>
    ensures { IfOk result (λ w. w ≡ turned_over operator seat expression) }
{
    let mut operands = expression.take_children();
    negate_each(alloc, operator, &mut operands, seat)?;
    Ok(reshaped(expression, Shape::LogicalExpression(operator)).over(operands))
}

/// The negation of an expression, written in its seat: `!a` gives a where only its truth is asked
/// or it is a boolean, `&&` and `||` are turned into each other with their operands negated, `==`
/// and `!=`, `===` and `!==` are turned into each other, and any other e gives `!e`.
#[cycle(negating)]
pub fn negated(alloc: Global, expression: Node, seat: Seat) -> Result<Node, OutOfMemory>
    ensures { IfOk result (λ w. w ≡ neg seat expression) }
{
    if let Some(operator) = turned_operator(&expression) {
        return turned(alloc, operator, expression, seat);
    }
    if let Some(operator) = opposite_operator(&expression) {
        return Ok(reshaped(expression, Shape::BinaryExpression(operator)));
    }
    if is_unwrapped(&expression, seat) {
        return Ok(one(expression));
    }
    negation(alloc, expression)
}

/// The weight of the lighter of `!a` and of the negation of a, which stays at the greatest u64.
pub fn lighter_negation_weight(expression: &Node, seat: Seat) -> u64
    ensures { result ≡ capped (weight_at (Expr seat) (lighter_negation_of seat expression.now)) }
{
    let not = negation_weight(expression, seat);
    let other = neg_weight(expression, seat);
    if not < other { not } else { other }
}

/// The lighter of `!a` and of the negation of a, as far as 64 bits tell it, written in this seat;
/// the negation where both weigh the same. The only error is that memory runs out.
pub fn lighter_negation(alloc: Global, expression: Node, seat: Seat) -> Result<Node, OutOfMemory>
    ensures { IfOk result (λ w. w ≡ lighter_negation_of seat expression) }
{
    if negation_weight(&expression, seat) < neg_weight(&expression, seat) {
        negation(alloc, expression)
    } else {
        negated(alloc, expression, seat)
    }
}
