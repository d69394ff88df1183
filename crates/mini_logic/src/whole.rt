//! The whole negation of an expression: `&&` and `||` are turned into each other however deep, of a
//! sequence the last part is negated, and comparisons of `typeof` and literals in them are turned.

ghost use Rattle.std.specs.Prelude.{◌≡◌, ◌+◌, ◌-◌, ◌<◌, true, [], IfOk, IfSome};
ghost use Rattle.mini_model.specs.Tree.{children, count};
ghost use Rattle.mini_model.specs.declared.place.Position.TheVariants.{Expr};
ghost use Rattle.mini_model.specs.declared.shape.Shape.TheVariants.{SequenceExpression};
ghost use Rattle.mini_model.specs.Weight.{capped, place_weight, weight as weight_at};
ghost use Rattle.mini_node.specs.Children.{part};
ghost use Rattle.mini_node.specs.Kinds.{logical_operator as logical_operator_of, unary_operator as unary_operator_of, string as text_of};
ghost use Rattle.mini_rows.specs.Negations as row;
ghost use Rattle.mini_logic.specs.MinimizeNegation.{junction_of, leading, told, told_lightest};

use crate::sequences::{put_parts, take_parts};
use crate::terms::{lighter_negation, lighter_negation_weight, own_weight};
use mini_model::{
    BinaryOperator, LogicalOperator, OutOfMemory, Position, Seat, Shape, UnaryOperator,
};
use mini_node::{
    Node, Nodes, binary, binary_operator, boolean, boolean_literal, discard, is_sequence, logical,
    logical_operator, string, two, unary_operator,
};
use mini_tree::{own_weight as node_weight, seats, weight};
use std::alloc::Global;

// The units of `u`.
const LETTER_U: [u16; 1] = [117];

// `||` for `a && b`, and `&&` for `a || b`
fn turned_junction(node: &Node) -> Option<LogicalOperator>
    ensures kind { result ≡ junction_of (logical_operator_of node.now) }
    ensures parts { IfSome result (λ _. count (children node.now) ≡ 2) }
{
    match logical_operator(node) {
        Some(LogicalOperator::And) => Some(LogicalOperator::Or),
        Some(LogicalOperator::Or) => Some(LogicalOperator::And),
        _ => None,
    }
}

// A sequence of two parts at least.
#[tactic(auto, using(crate::proofs::WholeForms::several_by_parts, crate::proofs::WholeForms::other_than_several))]
fn is_several(node: &Node) -> bool
    ensures kind { result ≡ row.is_several node.now }
    ensures list { result ≡ true → count (children node.now) ≡ 1 }
    ensures parts { result ≡ true → 1 < count (children (part node.now 0)) }
{
    is_sequence(node) && node.child(0).children().len() > 1
}

// `>` for `<`, and `<` for `>`
fn reversed(operator: BinaryOperator) -> Option<BinaryOperator>
    ensures { result ≡ row.reversed operator }
{
    match operator {
        BinaryOperator::LessThan => Some(BinaryOperator::GreaterThan),
        BinaryOperator::GreaterThan => Some(BinaryOperator::LessThan),
        _ => None,
    }
}

fn is_typeof(node: &Node) -> bool
    ensures { result ≡ row.is_typeof (unary_operator_of node.now) }
{
    match unary_operator(node) {
        Some(UnaryOperator::Typeof) => true,
        _ => false,
    }
}

// `"u"`
fn is_letter(node: &Node) -> bool
    ensures { result ≡ row.is_letter (text_of node.now) }
{
    match string(node) {
        Some(text) => text.as_slice() == LETTER_U.as_slice(),
        None => false,
    }
}

// `typeof a < "u"`, or with `>`: the operator of the two that it isn't
fn reverse_operator(node: &Node) -> Option<BinaryOperator>
    ensures kind { result ≡ row.reverse_of node.now }
    ensures parts { IfSome result (λ _. count (children node.now) ≡ 2) }
{
    match binary_operator(node) {
        Some(operator) if is_typeof(node.child(0)) && is_letter(node.child(1)) => {
            reversed(operator)
        }
        _ => None,
    }
}

/// Whether the expression is `&&` or `||`, a sequence, a comparison of `typeof a` with `u`, or a
/// literal of a boolean.
#[tactic(auto, using(crate::proofs::WholeForms::reaches_by_kind))]
pub fn reaches_in(expression: &Node) -> bool
    ensures { result ≡ row.reaches_in expression.now }
{
    turned_junction(expression).is_some()
        || is_several(expression)
        || reverse_operator(expression).is_some()
        || boolean(expression).is_some()
}

// What the parts of a sequence before the last one weigh, each with its comma.
fn leading_weight(parts: &Nodes) -> u64
    requires { 0 < count parts.now }
    ensures { result ≡ capped (leading (count parts.now - 1) parts.now) }
{
    let mut total: u64 = 0;
    for at in 0..parts.len() - 1 {
        let part = weight(parts.child(at), Position::Expr(seats::passed_part()));
        total = total.saturating_add(part).saturating_add(2);
    }
    total
}

// What a sequence weighs in its seat besides its parts and commas.
fn sequence_weight(sequence: &Node, seat: Seat) -> u64
    ensures { result ≡ capped (place_weight (Expr seat) SequenceExpression []) }
{
    node_weight(
        &Shape::SequenceExpression,
        &None,
        sequence.children(),
        Position::Expr(seat),
    )
}

/// The weight of the whole negation of an expression, written in its seat, which stays at the
/// greatest u64.
pub fn told_weight(expression: &Node, seat: Seat) -> u64
    ensures { result ≡ capped (weight_at (Expr seat) (told seat expression.now)) }
{
    if let Some(operator) = turned_junction(expression) {
        let left = told_weight(expression.child(0), seats::left_operand(operator, seat));
        let right = told_weight(expression.child(1), seats::right_operand(operator, seat));
        return own_weight(operator, seat)
            .saturating_add(left)
            .saturating_add(right);
    }
    if is_several(expression) {
        let parts = expression.child(0).children();
        let last = told_weight(parts.child(parts.len() - 1), seats::branch(seat));
        return sequence_weight(expression, seat)
            .saturating_add(leading_weight(parts))
            .saturating_add(last);
    }
    if let Some(_) = reverse_operator(expression) {
        return weight(expression, Position::Expr(seat));
    }
    if let Some(_) = boolean(expression) {
        return weight(expression, Position::Expr(seat));
    }
    lighter_negation_weight(expression, seat)
}

// The sequence with the whole negation of its last part.
#[cycle(telling)]
fn told_sequence(alloc: Global, expression: Node, seat: Seat) -> Result<Node, OutOfMemory>
    requires { row.is_several expression ≡ true }
    ensures { IfOk result (λ w. w ≡ told seat expression) }
{
    let mut sequence = expression;
    let mut parts = take_parts(&mut sequence);
    let at = parts.len() - 1;
    let last = told_negation(alloc, parts.take(at), seats::branch(seat))?;
    discard(parts.replace(at, last));
    put_parts(&mut sequence, parts);
    Ok(sequence)
}

/// The whole negation of an expression, written in its seat: `&&` and `||` are turned into each
/// other with both sides negated, of a sequence the last part is negated, `typeof a < "u"` and
/// `typeof a > "u"` are turned into each other, `true` and `false` too, and of any other expression
/// the lighter of its negation and of `!` over it is written. The only error is that memory runs
/// out.
#[cycle(telling)]
pub fn told_negation(alloc: Global, expression: Node, seat: Seat) -> Result<Node, OutOfMemory>
    ensures { IfOk result (λ w. w ≡ told seat expression) }
{
    if let Some(operator) = turned_junction(&expression) {
        let (left, right) = two(expression);
        let first = told_negation(alloc, left, seats::left_operand(operator, seat))?;
        let second = told_negation(alloc, right, seats::right_operand(operator, seat))?;
        return logical(alloc, operator, first, second);
    }
    if is_several(&expression) {
        return told_sequence(alloc, expression, seat);
    }
    if let Some(operator) = reverse_operator(&expression) {
        let (left, right) = two(expression);
        return binary(alloc, operator, left, right);
    }
    if let Some(value) = boolean(&expression) {
        discard(expression);
        return Ok(boolean_literal(alloc, !value));
    }
    lighter_negation(alloc, expression, seat)
}

/// The weight of the lightest negation of an expression, which stays at the greatest u64.
pub fn lightest_negation_weight(expression: &Node, seat: Seat) -> u64
    ensures { result ≡ capped (weight_at (Expr seat) (told_lightest seat expression.now)) }
{
    let lighter = lighter_negation_weight(expression, seat);
    let whole = told_weight(expression, seat);
    if lighter < whole { lighter } else { whole }
}

/// The lightest negation of an expression, as far as 64 bits tell it, written in this seat: of `!`
/// over it, its negation, and its whole negation. The only error is that memory runs out.
pub fn lightest_negation(alloc: Global, expression: Node, seat: Seat) -> Result<Node, OutOfMemory>
    ensures { IfOk result (λ w. w ≡ told_lightest seat expression) }
{
    if lighter_negation_weight(&expression, seat) < told_weight(&expression, seat) {
        lighter_negation(alloc, expression, seat)
    } else {
        told_negation(alloc, expression, seat)
    }
}
