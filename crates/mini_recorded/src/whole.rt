//! The whole negation of an expression, and the form of row 23: `&&` and `||` are turned into each
//! other however deep, of a sequence the last part is negated, and comparisons of `typeof` and
//! literals in them are turned. Each function that makes a node makes it of copies, and its only
//! error is that memory runs out.

ghost use Rattle.std.specs.Prelude.{◌≡◌, ◌<◌, true, None, IfOk, IfSome};
ghost use Rattle.mini_laws.specs.Value.{VariableSet};
ghost use Rattle.mini_log.specs.declared.row.LogRow.TheVariants.{Row23};
ghost use Rattle.mini_log.specs.ChoiceRows as form;
ghost use Rattle.mini_log.specs.RowStep.{first_lighter, node_forms, or_lighter};
ghost use Rattle.mini_model.specs.Position.{branch_seat, left_operand_seat, right_operand_seat};
ghost use Rattle.mini_model.specs.Terms.{not_of as lighter_of};
ghost use Rattle.mini_model.specs.Tree.{children, count, logical as logical_tree};
ghost use Rattle.mini_node.specs.Children.{part};
ghost use Rattle.mini_node.specs.Kinds.{logical_operator as logical_operator_of, sequence as sequence_tree, string as text_of, unary_operator as unary_operator_of};
ghost use Rattle.mini_recorded.specs.Negating.{junction_of};
ghost use Rattle.mini_rows.specs.Negations as row;

use crate::negating::not_of;
use mini_checker::{binary_of, copy_nodes, is_lighter, is_several};
use mini_model::{BinaryOperator, LogicalOperator, OutOfMemory, Position, Seat, UnaryOperator};
use mini_node::{
    Node, Nodes, binary_operator, boolean, boolean_literal, discard, is_negation, logical,
    logical_operator, sequence, string, unary_operator,
};
use mini_tree::seats;
use std::alloc::Global;

// The units of `u`.
const LETTER_U: [u16; 1] = [117];

// `||` for `a && b`, and `&&` for `a || b`
fn turned_junction(node: &Node) -> Option<LogicalOperator>
    ensures kind { result ≡ junction_of (logical_operator_of node.now) }
    ensures parts { IfSome result (λ _. count (children node.now) ≡ 2) }
{
    match logical_operator(node) {
        Some(LogicalOperator::And) => Some(LogicalOperator::Or),
        Some(LogicalOperator::Or) => Some(LogicalOperator::And),
        _ => None,
    }
}

// `>` for `<`, and `<` for `>`
fn reversed(operator: BinaryOperator) -> Option<BinaryOperator>
    ensures { result ≡ row.reversed operator }
{
    match operator {
        BinaryOperator::LessThan => Some(BinaryOperator::GreaterThan),
        BinaryOperator::GreaterThan => Some(BinaryOperator::LessThan),
        _ => None,
    }
}

fn is_typeof(node: &Node) -> bool
    ensures { result ≡ row.is_typeof (unary_operator_of node.now) }
{
    match unary_operator(node) {
        Some(UnaryOperator::Typeof) => true,
        _ => false,
    }
}

// `"u"`
fn is_letter(node: &Node) -> bool
    ensures { result ≡ row.is_letter (text_of node.now) }
{
    match string(node) {
        Some(text) => text.as_slice() == LETTER_U.as_slice(),
        None => false,
    }
}

// `typeof a < "u"`, or with `>`: the operator of the two that it isn't
fn reverse_operator(node: &Node) -> Option<BinaryOperator>
    ensures kind { result ≡ row.reverse_of node.now }
    ensures parts { IfSome result (λ _. count (children node.now) ≡ 2) }
{
    match binary_operator(node) {
        Some(operator) if is_typeof(node.child(0)) && is_letter(node.child(1)) => {
            reversed(operator)
        }
        _ => None,
    }
}

// The logical expression of this operator over the whole negations of both sides.
#[cycle(negating)]
fn whole_sides(
    alloc: Global,
    operator: LogicalOperator,
    node: &Node,
    seat: Seat,
) -> Result<Node, OutOfMemory>
    requires { count (children node.now) ≡ 2 }
    ensures { IfOk result (λ w. w ≡ logical_tree operator (row.whole (left_operand_seat operator seat) (part node.now 0)) (row.whole (right_operand_seat operator seat) (part node.now 1))) }
{
    let left = whole(alloc, node.child(0), seats::left_operand(operator, seat))?;
    let right = whole(alloc, node.child(1), seats::right_operand(operator, seat))?;
    logical(alloc, operator, left, right)
}

// The sequence of these parts with the whole negation of the last one.
#[cycle(negating)]
fn whole_sequence(alloc: Global, parts: &Nodes, seat: Seat) -> Result<Node, OutOfMemory>
    requires { 1 < count parts.now }
    ensures { IfOk result (λ w. w ≡ sequence_tree (row.last_by lighter_of (branch_seat seat) parts.now)) }
{
    let at = parts.len() - 1;
    let last = whole(alloc, parts.child(at), seats::branch(seat))?;
    let mut copies = copy_nodes(alloc, parts)?;
    discard(copies.replace(at, last));
    sequence(alloc, copies)
}

/// The whole negation of an expression, written in its seat. Memory counts as run out where a
/// negation in it weighs 2^64 - 1 or more.
#[cycle(negating)]
pub fn whole(alloc: Global, node: &Node, seat: Seat) -> Result<Node, OutOfMemory>
    ensures { IfOk result (λ w. w ≡ row.whole seat node.now) }
{
    if let Some(operator) = turned_junction(node) {
        return whole_sides(alloc, operator, node, seat);
    }
    if is_several(node) {
        return whole_sequence(alloc, node.child(0).children(), seat);
    }
    if let Some(operator) = reverse_operator(node) {
        return binary_of(alloc, operator, node.child(0), node.child(1));
    }
    if let Some(value) = boolean(node) {
        return Ok(boolean_literal(alloc, !value));
    }
    not_of(alloc, node, seat)
}

// 23: `!e` becomes the whole negation of e.
fn negated(alloc: Global, seat: Seat, node: &Node) -> Result<Option<Node>, OutOfMemory>
    ensures { IfOk result (λ w. w ≡ form.negated seat node.now) }
{
    if is_negation(node) {
        Ok(Some(whole(alloc, node.child(0), seat)?))
    } else {
        Ok(None)
    }
}

// The node that was made of another, if it weighs less in the place.
fn if_lighter(node: &Node, place: Position, made: Option<Node>) -> Result<Option<Node>, OutOfMemory>
    ensures { IfOk result (λ left. left ≡ or_lighter place node.now made None) }
{
    match made {
        Some(other) => {
            if is_lighter(&other, node, place)? {
                Ok(Some(other))
            } else {
                Ok(None)
            }
        }
        None => Ok(None),
    }
}

/// Row 23. Memory counts as run out where the node, or a negation in what is made of it, weighs
/// 2^64 - 1 or more.
pub fn row_23(alloc: Global, place: Position, node: &Node) -> Result<Option<Node>, OutOfMemory>
    ensures { IfOk result (λ w. (W : VariableSet) → w ≡ first_lighter place node.now (node_forms W Row23 place node.now)) }
{
    match place {
        Position::Expr(seat) => {
            let made = negated(alloc, seat, node)?;
            if_lighter(node, place, made)
        }
        _ => Ok(None),
    }
}
