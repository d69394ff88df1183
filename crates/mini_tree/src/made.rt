//! The weight of a node that could be made of parts that stand elsewhere.

ghost use Rattle.std.specs.Prelude.{◌≡◌};
ghost use Rattle.mini_model.specs.Tree.{negation, logical, conditional};
ghost use Rattle.mini_model.specs.Weight.{capped, weight as weight_at};

use crate::marks::parentheses;
use crate::seats;
use crate::weigh::weight;
use mini_model::{LogicalOperator, Position, Seat, Shape, UnaryOperator};
use mini_node::Node;

/// The weight that `!a` would have in a seat.
pub fn negation_weight(argument: &Node, seat: Seat) -> u64
    ensures { result ≡ capped (weight_at (Position.Expr seat) (negation argument.now)) }
{
    let own = parentheses(&Shape::UnaryExpression(UnaryOperator::LogicalNot), seat) + 2;
    own.saturating_add(weight(argument, Position::Expr(seats::not_operand())))
}

/// The weight that `a && b`, `a || b` or `a ?? b` would have in a seat.
pub fn logical_weight(operator: LogicalOperator, left: &Node, right: &Node, seat: Seat) -> u64
    ensures { result ≡ capped (weight_at (Position.Expr seat) (logical operator left.now right.now)) }
{
    let own = parentheses(&Shape::LogicalExpression(operator), seat) + 4;
    own.saturating_add(weight(left, Position::Expr(seats::left_operand(operator, seat))))
        .saturating_add(weight(right, Position::Expr(seats::right_operand(operator, seat))))
}

/// The weight that `a ? b : c` would have in a seat.
pub fn conditional_weight(test: &Node, consequent: &Node, alternate: &Node, seat: Seat) -> u64
    ensures { result ≡ capped (weight_at (Position.Expr seat) (conditional test.now consequent.now alternate.now)) }
{
    let own = parentheses(&Shape::ConditionalExpression, seat) + 4;
    own.saturating_add(weight(test, Position::Expr(seats::conditional_test())))
        .saturating_add(weight(consequent, Position::Expr(seats::branch(seat))))
        .saturating_add(weight(alternate, Position::Expr(seats::branch(seat))))
}
