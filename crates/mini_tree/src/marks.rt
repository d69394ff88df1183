//! What its place adds to a node.

ghost use Rattle.std.specs.Prelude.{◌≡◌, ◌≤◌};
ghost use Rattle.mini_model.specs.Weight.{level_of, mixes as mixes_shape, is_chain as is_chain_shape, is_call as is_call_shape, is_plain as is_plain_shape, is_unequal as is_unequal_shape, is_sequence as is_sequence_shape, parentheses as parentheses_of, awkward_weight, bare_weight, place_weight as weight_of_place};

use crate::outline::Outlined;
use crate::seats;
use mini_model::{BinaryOperator, Mix, Position, Seat, Shape, StmtSeat, UnaryOperator};

fn level(shape: &Shape) -> u8
    ensures { result ≡ level_of shape.now }
{
    match shape {
        Shape::SequenceExpression => 0,
        Shape::AssignmentExpression(_)
        | Shape::ArrowFunctionExpression(_)
        | Shape::YieldExpression(_) => 1,
        Shape::ConditionalExpression => 2,
        Shape::LogicalExpression(operator) => seats::level_of_operator(*operator),
        Shape::BinaryExpression(operator) => seats::level_of_binary_operator(*operator),
        Shape::PrivateInExpression => 9,
        Shape::UnaryExpression(_) => 14,
        Shape::NumericLiteral(value) if *value < 0 => 14,
        Shape::UpdateExpression(_, _) => 15,
        _ => 16,
    }
}

// Whether a logical expression stands in the other kind of them.
fn mixes(shape: &Shape, mix: Mix) -> bool
    ensures { result ≡ mixes_shape shape.now mix }
{
    match (shape, mix) {
        (Shape::LogicalExpression(operator), Mix::InCoalesce) => {
            seats::is_and_or_operator(*operator)
        }
        (Shape::LogicalExpression(operator), Mix::InAndOr) => {
            !seats::is_and_or_operator(*operator)
        }
        _ => false,
    }
}

fn is_chain(shape: &Shape) -> bool
    ensures { result ≡ is_chain_shape shape.now }
{
    matches!(shape, Shape::ChainExpression)
}

fn is_call(shape: &Shape) -> bool
    ensures { result ≡ is_call_shape shape.now }
{
    matches!(shape, Shape::CallExpression(_))
}

/// The weight of the parentheses that an expression of this shape needs in a seat: 4, or 0 for
/// none.
pub fn parentheses(shape: &Shape, seat: Seat) -> u64
    ensures within { result ≤ 4 }
    ensures weight { result ≡ parentheses_of shape.now seat }
{
    if level(shape) < seat.level
        || mixes(shape, seat.mix)
        || seat.access && is_chain(shape)
        || seat.new_callee && is_call(shape)
    {
        4
    } else {
        0
    }
}

// A literal, or what stands for one.
fn is_plain<C: Outlined>(shape: &Shape, children: &C) -> bool
    ensures { result ≡ is_plain_shape shape.now (C.below children.now) }
{
    match shape {
        Shape::NumericLiteral(_)
        | Shape::StringLiteral(_)
        | Shape::BooleanLiteral(_)
        | Shape::NullLiteral
        | Shape::BigIntLiteral(_) => true,
        Shape::TemplateLiteral => children.items(1) == 0,
        Shape::UnaryExpression(UnaryOperator::Void) => children.is_zero_first(),
        _ => false,
    }
}

fn is_unequal(shape: &Shape) -> bool
    ensures { result ≡ is_unequal_shape shape.now }
{
    match shape {
        Shape::BinaryExpression(BinaryOperator::Inequality | BinaryOperator::StrictInequality) => {
            true
        }
        _ => false,
    }
}

fn is_sequence(shape: &Shape) -> bool
    ensures { result ≡ is_sequence_shape shape.now }
{
    matches!(shape, Shape::SequenceExpression)
}

// The weight that an expression has on top where a lighter form of it is wanted, so that a rewrite
// to that is lighter.
fn awkward<C: Outlined>(shape: &Shape, children: &C, seat: Seat) -> u64
    ensures within { result ≤ 1 }
    ensures weight { result ≡ awkward_weight seat shape.now (C.below children.now) }
{
    if seat.eq_left && is_plain(shape, children)
        || seat.cond_test && is_unequal(shape)
        || seat.lifted && is_sequence(shape)
    {
        1
    } else {
        0
    }
}

fn bare(seat: StmtSeat) -> u64
    ensures { result ≡ bare_weight seat }
{
    match seat {
        StmtSeat::Consequent => 1,
        StmtSeat::List | StmtSeat::Body => 0,
    }
}

/// The weight that its place adds to a node: parentheses, and marks of forms for which a lighter
/// one is wanted.
pub fn place_weight<C: Outlined>(shape: &Shape, children: &C, place: Position) -> u64
    ensures { result ≡ weight_of_place place shape.now (C.below children.now) }
{
    match place {
        Position::Expr(seat) => parentheses(shape, seat) + awkward(shape, children, seat),
        Position::Stmt(seat) => statement_marks(shape, children, seat),
        _ => 0,
    }
}

fn statement_marks<C: Outlined>(shape: &Shape, children: &C, seat: StmtSeat) -> u64
    ensures { result ≡ weight_of_place (Position.Stmt seat) shape.now (C.below children.now) }
{
    match shape {
        Shape::IfStatement if !children.is_absent(2) => bare(seat),
        _ => 0,
    }
}
