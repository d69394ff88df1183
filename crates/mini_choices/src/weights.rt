//! The weight of what could be made of parts that stand elsewhere.

ghost use Rattle.std.specs.Prelude.{◌≡◌, []};
ghost use Rattle.mini_model.specs.Tree.{children, logical, conditional};
ghost use Rattle.mini_model.specs.Weight.{capped, outlines, own_weight as weight_of_own, weight as weight_at};
ghost use Rattle.mini_rows.specs.Choices.{pair};

use mini_model::{LogicalOperator, Position, Seat, Shape};
use mini_node::Node;
use mini_tree::{logical_weight, own_weight, seats, weight};

// What a node of this shape writes besides its children, where that does not depend on them.
fn own(shape: &Shape, like: &Node, seat: Seat) -> u64
    ensures { result ≡ capped (weight_of_own (Position.Expr seat) shape.now [] (outlines (children like.now))) }
{
    own_weight(shape, &None, like.children(), Position::Expr(seat))
}

/// The weight of `a && b ? c : d`, and so of `||`, in a seat.
pub fn conditional_over_weight(
    operator: LogicalOperator,
    left: &Node,
    right: &Node,
    consequent: &Node,
    alternate: &Node,
    seat: Seat,
) -> u64
    ensures { result ≡ capped (weight_at (Position.Expr seat) (conditional (logical operator left.now right.now) consequent.now alternate.now)) }
{
    own(&Shape::ConditionalExpression, left, seat)
        .saturating_add(logical_weight(operator, left, right, seats::conditional_test()))
        .saturating_add(weight(consequent, Position::Expr(seats::branch(seat))))
        .saturating_add(weight(alternate, Position::Expr(seats::branch(seat))))
}

/// The weight of `a && b || c`, or of `(a || b) && c`, in a seat.
pub fn logical_over_weight(
    operator: LogicalOperator,
    inner: LogicalOperator,
    left: &Node,
    middle: &Node,
    right: &Node,
    seat: Seat,
) -> u64
    ensures { result ≡ capped (weight_at (Position.Expr seat) (logical operator (logical inner left.now middle.now) right.now)) }
{
    own(&Shape::LogicalExpression(operator), left, seat)
        .saturating_add(logical_weight(inner, left, middle, seats::left_operand(operator, seat)))
        .saturating_add(weight(right, Position::Expr(seats::right_operand(operator, seat))))
}

/// The weight of `a && b, c`, and so of `||`, in a seat.
pub fn pair_over_weight(
    operator: LogicalOperator,
    left: &Node,
    right: &Node,
    last: &Node,
    seat: Seat,
) -> u64
    ensures { result ≡ capped (weight_at (Position.Expr seat) (pair (logical operator left.now right.now) last.now)) }
{
    own(&Shape::SequenceExpression, left, seat)
        .saturating_add(2)
        .saturating_add(logical_weight(operator, left, right, seats::passed_part()))
        .saturating_add(weight(last, Position::Expr(seats::branch(seat))))
}

/// The weight of `a, b` in a seat.
pub fn pair_weight(first: &Node, last: &Node, seat: Seat) -> u64
    ensures { result ≡ capped (weight_at (Position.Expr seat) (pair first.now last.now)) }
{
    own(&Shape::SequenceExpression, first, seat)
        .saturating_add(2)
        .saturating_add(weight(first, Position::Expr(seats::passed_part())))
        .saturating_add(weight(last, Position::Expr(seats::branch(seat))))
}
