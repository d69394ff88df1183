//! The rows on what is known of an expression from its text: 1, 3, 7, 12, 13, 15 and 49. Each
//! function makes what one form of a row writes for a node, if it fits. The only error is that
//! memory runs out.

ghost use Rattle.std.specs.Prelude.{◌≡◌, ◌+◌, ◌&&◌, nat_le, codes, true, [], IfOk};
ghost use Rattle.mini_model.specs.Tree.{children, count, shape_of};
ghost use Rattle.mini_node.specs.Children.{part, names};
ghost use Rattle.mini_model.specs.declared.place.Position.TheVariants.{Expr};
ghost use Rattle.mini_model.specs.Weight.{weight as weight_at};
ghost use Rattle.mini_node.specs.Kinds as kind;
ghost use Rattle.mini_terms.specs.Folds as fold;
ghost use Rattle.mini_terms.specs.Parts as part_of;
ghost use Rattle.mini_log.specs.Terms as term;
ghost use Rattle.mini_log.specs.KnownRows as row;
ghost use Rattle.mini_checker.specs.Forms.{of_rows};

use crate::copying::copy_node;
use crate::lighter::exact_weight;
use crate::making::sequence_of;
use mini_held::takes_names_along;
use mini_model::{
    AssignmentOperator, BinaryOperator, LogicalOperator, Name, OutOfMemory, Position, Seat, Shape,
};
use mini_node::{
    Node, assignment_operator, binary_operator, is_computed_member, is_conditional, is_identifier,
    is_same_tree, is_static_member, logical_operator, string, unary_operator,
};
use mini_terms::{
    Kind, evaluate_value, goes_on, has_no_effect, kind_of, leaves_nothing, stops, suits,
    value_to_expr, weighs,
};
use std::alloc::Global;

// ---- 1, 3

fn margin(node: &Node) -> u64
    ensures { result ≡ row.margin_by (shape_of node.now) }
{
    match node.shape() {
        Shape::NumericLiteral(0) => 2,
        _ => 1,
    }
}

// Whether the literal is lighter than the node by its margin.
fn gains(seat: Seat, node: &Node, literal: &Node) -> Result<bool, OutOfMemory>
    ensures { IfOk result (λ gains. gains ≡ nat_le (weight_at (Expr seat) literal.now + row.margin_by (shape_of literal.now)) (weight_at (Expr seat) node.now)) }
{
    let place = Position::Expr(seat);
    let before = exact_weight(node, place)?;
    let after = exact_weight(literal, place)?;
    match after.checked_add(margin(literal)) {
        Some(total) => Ok(total <= before),
        None => Err(OutOfMemory),
    }
}

fn folded_to(seat: Seat, node: &Node, literal: Node) -> Result<Option<Node>, OutOfMemory>
    ensures { IfOk result (λ w. w ≡ row.folded_to seat node.now literal) }
{
    let lighter = gains(seat, node, &literal)?;
    if leaves_nothing(node) && suits(seat, &literal) && lighter {
        Ok(Some(literal))
    } else {
        Ok(None)
    }
}

/// The literal of the value that is calculated.
pub fn folded(alloc: Global, seat: Seat, node: &Node) -> Result<Option<Node>, OutOfMemory>
    ensures { IfOk result (λ w. w ≡ row.folded seat node.now) }
{
    match evaluate_value(alloc, node)? {
        Some(value) => folded_to(seat, node, value_to_expr(alloc, value)?),
        None => Ok(None),
    }
}

/// 1: of a unary expression.
pub fn folded_unary(alloc: Global, seat: Seat, node: &Node) -> Result<Option<Node>, OutOfMemory>
    ensures { IfOk result (λ w. w ≡ row.folded_unary seat node.now) }
{
    match unary_operator(node) {
        Some(_) => folded(alloc, seat, node),
        None => Ok(None),
    }
}

/// 3: of a binary expression.
pub fn folded_binary(alloc: Global, seat: Seat, node: &Node) -> Result<Option<Node>, OutOfMemory>
    ensures { IfOk result (λ w. w ≡ row.folded_binary seat node.now) }
{
    match binary_operator(node) {
        Some(_) => folded(alloc, seat, node),
        None => Ok(None),
    }
}

// ---- 7

fn is_addition(operator: BinaryOperator) -> bool
    ensures { result ≡ row.is_addition operator }
{
    matches!(operator, BinaryOperator::Addition)
}

fn is_text_kind(kind: Kind) -> bool
    ensures { result ≡ row.is_text_kind kind }
{
    matches!(kind, Kind::String)
}

fn is_empty_text(node: &Node) -> bool
    ensures { result ≡ term.is_text [] (kind.string node.now) }
{
    match string(node) {
        Some(text) => text.is_empty(),
        None => false,
    }
}

fn stays_text(
    alloc: Global,
    seat: Seat,
    left: &Node,
    empty: &Node,
    operator: BinaryOperator,
) -> Result<Option<Node>, OutOfMemory>
    ensures { IfOk result (λ w. w ≡ row.stays_text seat left.now empty.now operator) }
{
    if is_addition(operator)
        && is_empty_text(empty)
        && is_text_kind(kind_of(left))
        && suits(seat, left)
    {
        Ok(Some(copy_node(alloc, left)?))
    } else {
        Ok(None)
    }
}

/// 7: `e + ""` becomes e.
pub fn before_nothing(alloc: Global, seat: Seat, node: &Node) -> Result<Option<Node>, OutOfMemory>
    ensures { IfOk result (λ w. w ≡ row.before_nothing seat node.now) }
{
    match binary_operator(node) {
        Some(operator) => stays_text(alloc, seat, node.child(0), node.child(1), operator),
        None => Ok(None),
    }
}

/// 7: `"" + e` becomes e.
pub fn behind_nothing(alloc: Global, seat: Seat, node: &Node) -> Result<Option<Node>, OutOfMemory>
    ensures { IfOk result (λ w. w ≡ row.behind_nothing seat node.now) }
{
    match binary_operator(node) {
        Some(operator) => stays_text(alloc, seat, node.child(1), node.child(0), operator),
        None => Ok(None),
    }
}

// ---- 12, 13, 15

const MODULE: [u16; 6] = [109, 111, 100, 117, 108, 101];

const EXPORTS: [u16; 7] = [101, 120, 112, 111, 114, 116, 115];

fn is_module(name: &Option<Name>) -> bool
    ensures { result ≡ term.is_spelled (codes "module") (names name.now) }
{
    match name {
        Some(name) => name.spelling.as_slice() == MODULE.as_slice(),
        None => false,
    }
}

fn is_exports_key(node: &Node) -> bool
    ensures { result ≡ row.is_exports_key (shape_of node.now) }
{
    match node.shape() {
        Shape::IdentifierName(text) => text.as_slice() == EXPORTS.as_slice(),
        Shape::StringLiteral(text) => text.as_slice() == EXPORTS.as_slice(),
        _ => false,
    }
}

fn is_exports(node: &Node) -> bool
    ensures { result ≡ row.is_exports node.now }
{
    (is_static_member(node) || is_computed_member(node))
        && (is_identifier(node.child(0)) && is_module(node.child(0).name()))
        && is_exports_key(node.child(1))
}

fn assigns_exports(node: &Node) -> bool
    ensures { result ≡ (term.is_assign (kind.assignment_operator node.now) && row.is_exports (part node.now 0)) }
{
    match assignment_operator(node) {
        Some(AssignmentOperator::Assign) => is_exports(node.child(0)),
        _ => false,
    }
}

fn names_exports(operator: LogicalOperator, node: &Node) -> bool
    ensures { result ≡ row.names_exports operator node.now }
{
    match operator {
        LogicalOperator::And => assigns_exports(node),
        _ => false,
    }
}

/// Whether the operator is `??`, as row 15 asks, and else `&&` or `||`, as rows 12 and 13 do.
pub fn is_of(coalesces: bool, operator: LogicalOperator) -> bool
    ensures { result ≡ of_rows coalesces operator }
{
    match operator {
        LogicalOperator::Coalesce => coalesces,
        _ => !coalesces,
    }
}

fn stopped_by(
    alloc: Global,
    coalesces: bool,
    seat: Seat,
    node: &Node,
    operator: LogicalOperator,
) -> Result<Option<Node>, OutOfMemory>
    requires { count (children node.now) ≡ 2 }
    ensures { IfOk result (λ w. w ≡ row.stopped_by (of_rows coalesces) seat node.now operator) }
{
    if is_of(coalesces, operator)
        && stops(operator, node.child(0))
        && !names_exports(operator, node.child(1))
        && takes_names_along(node.child(1))
        && weighs(node.child(1))
        && suits(seat, node.child(0))
    {
        Ok(Some(copy_node(alloc, node.child(0))?))
    } else {
        Ok(None)
    }
}

/// 12, and 15 of `??`: `a op b`, where b is never evaluated, becomes a.
pub fn stopped(
    alloc: Global,
    coalesces: bool,
    seat: Seat,
    node: &Node,
) -> Result<Option<Node>, OutOfMemory>
    ensures { IfOk result (λ w. w ≡ row.stopped (of_rows coalesces) seat node.now) }
{
    match logical_operator(node) {
        Some(operator) => stopped_by(alloc, coalesces, seat, node, operator),
        None => Ok(None),
    }
}

// Whether an expression may be dropped before another that stays in the seat.
fn goes_before(seat: Seat, first: &Node, second: &Node) -> bool
    ensures { result ≡ (fold.is_effect_free first.now && (part_of.leaves_nothing first.now && (part_of.weighs first.now && part_of.suits seat second.now))) }
{
    has_no_effect(first) && leaves_nothing(first) && weighs(first) && suits(seat, second)
}

fn passed_by(
    alloc: Global,
    coalesces: bool,
    seat: Seat,
    node: &Node,
    operator: LogicalOperator,
) -> Result<Option<Node>, OutOfMemory>
    requires { count (children node.now) ≡ 2 }
    ensures { IfOk result (λ w. w ≡ row.passed_by (of_rows coalesces) seat node.now operator) }
{
    if is_of(coalesces, operator)
        && goes_on(operator, node.child(0))
        && goes_before(seat, node.child(0), node.child(1))
    {
        Ok(Some(copy_node(alloc, node.child(1))?))
    } else {
        Ok(None)
    }
}

/// 13, and 15 of `??`: `a op b`, where b always is, becomes b, if a is effect-free.
pub fn passed(
    alloc: Global,
    coalesces: bool,
    seat: Seat,
    node: &Node,
) -> Result<Option<Node>, OutOfMemory>
    ensures { IfOk result (λ w. w ≡ row.passed (of_rows coalesces) seat node.now) }
{
    match logical_operator(node) {
        Some(operator) => passed_by(alloc, coalesces, seat, node, operator),
        None => Ok(None),
    }
}

fn both_by(
    alloc: Global,
    coalesces: bool,
    node: &Node,
    operator: LogicalOperator,
) -> Result<Option<Node>, OutOfMemory>
    requires { count (children node.now) ≡ 2 }
    ensures { IfOk result (λ w. w ≡ row.both_by (of_rows coalesces) node.now operator) }
{
    if is_of(coalesces, operator)
        && goes_on(operator, node.child(0))
        && !has_no_effect(node.child(0))
    {
        Ok(Some(sequence_of(alloc, node.child(0), node.child(1))?))
    } else {
        Ok(None)
    }
}

/// 13, and 15 of `??`: else `a, b`.
pub fn both(alloc: Global, coalesces: bool, node: &Node) -> Result<Option<Node>, OutOfMemory>
    ensures { IfOk result (λ w. w ≡ row.both (of_rows coalesces) node.now) }
{
    match logical_operator(node) {
        Some(operator) => both_by(alloc, coalesces, node, operator),
        None => Ok(None),
    }
}

// ---- 49

fn chooses_one(node: &Node) -> bool
    ensures kind { result ≡ row.chooses_one node.now }
    ensures parts { result ≡ true → count (children node.now) ≡ 3 }
{
    is_conditional(node) && is_same_tree(node.child(1), node.child(2))
}

/// 49: `a ? b : b` becomes b, if a is effect-free.
pub fn one_branch(alloc: Global, seat: Seat, node: &Node) -> Result<Option<Node>, OutOfMemory>
    ensures { IfOk result (λ w. w ≡ row.one_branch seat node.now) }
{
    if chooses_one(node) && goes_before(seat, node.child(0), node.child(1)) {
        Ok(Some(copy_node(alloc, node.child(1))?))
    } else {
        Ok(None)
    }
}

/// 49: else `a, b`.
pub fn both_branches(alloc: Global, node: &Node) -> Result<Option<Node>, OutOfMemory>
    ensures { IfOk result (λ w. w ≡ row.both_branches node.now) }
{
    if chooses_one(node) && !has_no_effect(node.child(0)) {
        Ok(Some(sequence_of(alloc, node.child(0), node.child(1))?))
    } else {
        Ok(None)
    }
}
