//! Rewrites that stand in larger ones, each by itself: of what is calculated (1), of `delete` (2),
//! of sides and operands that are known (12 to 15), of `typeof` (16 and 17), and of comparisons,
//! bits and signs (27 to 32 and 56). What is written is lighter in its seat.

ghost use Rattle.std.specs.Prelude.{◌≡◌, None, is_some, unwrap_or, OnOk, IfOk};
ghost use Rattle.mini_model.specs.Tree.{children, count};
ghost use Rattle.mini_node.specs.Children.{part};
ghost use Rattle.mini_node.specs.Kinds.{unary_operator as its_unary_operator};
ghost use Rattle.mini_fold.specs.FoldConstants.{literal_written};
ghost use Rattle.mini_fold.specs.FoldOperands as operand;
ghost use Rattle.mini_fold.specs.FoldOperands.{or_else};
ghost use Rattle.mini_fold.specs.FoldOperators.{delete_written, without_plus};
ghost use Rattle.mini_fold.specs.Names as name;

use crate::rewrites::fold_constants::fold_literal;
use crate::rewrites::fold_known::fold_logical_expression;
use crate::rewrites::fold_operands::{
    are_same, digit, fold_bits, fold_kept, fold_middle, fold_whole, is_told, last, loosely,
    tests_bits, tests_enclosed, tests_shift, told, truth_in, zero_told,
};
use crate::rewrites::fold_operators::{drops_left, drops_right, fold_delete, told_by_types};
use crate::rewrites::minimize_binary::minimize_binary;
use mini_held::negated_digit;
use mini_model::{BinaryOperator, LogicalOperator, OutOfMemory, Seat};
use mini_node::{Node, binary, binary_operator, logical_operator, one, taken, two, unary_operator};
use std::alloc::Global;

/// `typeof x == typeof x` becomes `!0`, and `typeof a == "text"` `!1` where no value of `typeof` is
/// that; unequal the other one. The answer says whether it did; the only error is that memory runs
/// out.
pub fn fold_binary_typeof_comparison(alloc: Global, node: &mut Node) -> Result<bool, OutOfMemory>
    ensures tree { OnOk result (node.new ≡ unwrap_or (name.typeof_written node.old) node.old) }
    ensures said { IfOk result (λ changed. changed ≡ is_some (name.typeof_written node.old)) }
{
    let Some(operator) = binary_operator(node) else {
        return Ok(false);
    };
    let Some(truth) = told_by_types(node, operator) else {
        return Ok(false);
    };
    *node = negated_digit(alloc, truth)?;
    Ok(true)
}

// `a * 2` of `+a * 2`, and of `a * +2`
fn drop_plus(alloc: Global, node: &mut Node, operator: BinaryOperator) -> Result<bool, OutOfMemory>
    requires { count (children node.old) ≡ 2 }
    ensures tree { OnOk result (node.new ≡ unwrap_or (without_plus operator (part node.old 0) (part node.old 1) None) node.old) }
    ensures said { IfOk result (λ changed. changed ≡ is_some (without_plus operator (part node.old 0) (part node.old 1) None)) }
{
    if drops_left(alloc, operator, node.child(0), node.child(1))? {
        let (left, right) = two(taken(alloc, node));
        *node = binary(alloc, operator, one(left), right)?;
        return Ok(true);
    }
    if drops_right(operator, node.child(0), node.child(1)) {
        let (left, right) = two(taken(alloc, node));
        *node = binary(alloc, operator, left, one(right))?;
        return Ok(true);
    }
    Ok(false)
}

/// `+a * 2` becomes `a * 2`, and so of other operators that make numbers of their operands. The
/// answer says whether it did; the only error is that memory runs out, and then the expression is
/// fit only to be dropped.
pub fn substitute_unary_plus(alloc: Global, node: &mut Node) -> Result<bool, OutOfMemory>
    ensures tree { OnOk result (node.new ≡ unwrap_or (name.plus_written node.old) node.old) }
    ensures said { IfOk result (λ changed. changed ≡ is_some (name.plus_written node.old)) }
{
    match binary_operator(node) {
        Some(operator) => drop_plus(alloc, node, operator),
        None => Ok(false),
    }
}

// `a == 1` of `a == !0`, and `1 == a` of `!0 == a`
fn write_digit(alloc: Global, node: &mut Node, equal: bool) -> Result<bool, OutOfMemory>
    requires { count (children node.old) ≡ 2 }
    ensures tree { OnOk result (node.new ≡ unwrap_or (name.digits_written equal (operand.truth_in (part node.old 1)) (part node.old 0) (part node.old 1)) node.old) }
    ensures said { IfOk result (λ changed. changed ≡ is_some (name.digits_written equal (operand.truth_in (part node.old 1)) (part node.old 0) (part node.old 1))) }
{
    if let Some(truth) = truth_in(node.child(1)) {
        let left = one(taken(alloc, node));
        *node = binary(alloc, loosely(equal), left, digit(alloc, truth))?;
        return Ok(true);
    }
    if let Some(truth) = truth_in(node.child(0)) {
        let right = last(taken(alloc, node));
        *node = binary(alloc, loosely(equal), digit(alloc, truth), right)?;
        return Ok(true);
    }
    Ok(false)
}

// `a == 1` of `a == !0`, and `1 == a` of `!0 == a`, of an equality by this operator.
fn write_digits(
    alloc: Global,
    node: &mut Node,
    operator: BinaryOperator,
) -> Result<bool, OutOfMemory>
    requires { count (children node.old) ≡ 2 }
    ensures tree { OnOk result (node.new ≡ unwrap_or (name.loose_by operator node.old) node.old) }
    ensures said { IfOk result (λ changed. changed ≡ is_some (name.loose_by operator node.old)) }
{
    match operator {
        BinaryOperator::Equality => write_digit(alloc, node, true),
        BinaryOperator::Inequality => write_digit(alloc, node, false),
        _ => Ok(false),
    }
}

/// `a == !0` becomes `a == 1`, and `a != !1` `a != 0`, the boolean on either side. The answer says
/// whether it did; the only error is that memory runs out, and then the expression is fit only to
/// be dropped.
pub fn minimize_loose_boolean(alloc: Global, node: &mut Node) -> Result<bool, OutOfMemory>
    ensures tree { OnOk result (node.new ≡ unwrap_or (name.loose_written node.old) node.old) }
    ensures said { IfOk result (λ changed. changed ≡ is_some (name.loose_written node.old)) }
{
    match binary_operator(node) {
        Some(operator) => write_digits(alloc, node, operator),
        None => Ok(false),
    }
}

// `a | 0` of bits that stay, and bits without it, by the operator.
fn fold_bitwise(
    alloc: Global,
    node: &mut Node,
    seat: Seat,
    operator: BinaryOperator,
) -> Result<bool, OutOfMemory>
    requires { count (children node.old) ≡ 2 }
    ensures tree { OnOk result (node.new ≡ unwrap_or (name.bitwise_by seat operator node.old) node.old) }
    ensures said { IfOk result (λ changed. changed ≡ is_some (name.bitwise_by seat operator node.old)) }
{
    match operator {
        BinaryOperator::BitwiseOr => Ok(fold_whole(alloc, node)),
        BinaryOperator::BitwiseAnd => fold_bits(alloc, node, seat, BinaryOperator::BitwiseAnd),
        BinaryOperator::BitwiseXor => fold_bits(alloc, node, seat, BinaryOperator::BitwiseXor),
        BinaryOperator::ShiftLeft => fold_kept(alloc, node, seat, BinaryOperator::ShiftLeft),
        BinaryOperator::ShiftRight => fold_kept(alloc, node, seat, BinaryOperator::ShiftRight),
        _ => Ok(false),
    }
}

/// `a << 0`, `a >> 0`, `a ^ 0` and `a & 4294967295` become `a | 0`, and `a << 1 | 0` `a << 1`. The
/// answer says whether it did; the only error is that memory runs out, and then the expression is
/// fit only to be dropped.
pub fn minimize_bitwise_binary_expr(
    alloc: Global,
    node: &mut Node,
    seat: Seat,
) -> Result<bool, OutOfMemory>
    ensures tree { OnOk result (node.new ≡ unwrap_or (name.bitwise_written seat node.old) node.old) }
    ensures said { IfOk result (λ changed. changed ≡ is_some (name.bitwise_written seat node.old)) }
{
    match binary_operator(node) {
        Some(operator) => fold_bitwise(alloc, node, seat, operator),
        None => Ok(false),
    }
}

// `a` of `a == !0` where it is a boolean
fn take_boolean(
    alloc: Global,
    node: &mut Node,
    seat: Seat,
    equal: bool,
) -> Result<bool, OutOfMemory>
    requires { count (children node.old) ≡ 2 }
    ensures tree { OnOk result (node.new ≡ unwrap_or (name.boolean_written seat equal (operand.truth_in (part node.old 1)) (part node.old 0)) node.old) }
    ensures said { IfOk result (λ changed. changed ≡ is_some (name.boolean_written seat equal (operand.truth_in (part node.old 1)) (part node.old 0))) }
{
    let Some(truth) = truth_in(node.child(1)) else {
        return Ok(false);
    };
    let holds = are_same(equal, truth);
    if !is_told(seat, holds, node.child(0)) {
        return Ok(false);
    }
    *node = told(alloc, holds, one(taken(alloc, node)))?;
    Ok(true)
}

// What is held against 0, or against a boolean.
fn hold_equal(alloc: Global, node: &mut Node, seat: Seat, equal: bool) -> Result<bool, OutOfMemory>
    requires { count (children node.old) ≡ 2 }
    ensures tree { OnOk result (node.new ≡ unwrap_or (name.equal_written seat equal (part node.old 0) (part node.old 1)) node.old) }
    ensures said { IfOk result (λ changed. changed ≡ is_some (name.equal_written seat equal (part node.old 0) (part node.old 1))) }
{
    if tests_bits(node.child(0), node.child(1)) {
        *node = zero_told(alloc, equal, one(taken(alloc, node)))?;
        return Ok(true);
    }
    if tests_shift(seat, equal, node.child(0), node.child(1)) {
        *node = one(taken(alloc, node));
        return Ok(true);
    }
    if tests_enclosed(seat, node.child(0), node.child(1)) {
        *node = zero_told(alloc, equal, one(taken(alloc, node)))?;
        return Ok(true);
    }
    take_boolean(alloc, node, seat, equal)
}

// A loose equality becomes shorter by what is known of its sides, and a strict one becomes loose.
fn minimize_equality(
    alloc: Global,
    node: &mut Node,
    seat: Seat,
    operator: BinaryOperator,
) -> Result<bool, OutOfMemory>
    requires { count (children node.old) ≡ 2 }
    ensures tree { OnOk result (node.new ≡ unwrap_or (name.binary_by seat operator node.old) node.old) }
    ensures said { IfOk result (λ changed. changed ≡ is_some (name.binary_by seat operator node.old)) }
{
    match operator {
        BinaryOperator::Equality => hold_equal(alloc, node, seat, true),
        BinaryOperator::Inequality => hold_equal(alloc, node, seat, false),
        _ => Ok(minimize_binary(alloc, node)),
    }
}

/// `(a & 1) == 0` becomes `!(a & 1)`, `!a == !0` becomes `!a`, and `a === b` `a == b` where both
/// are of one known Kind. The answer says whether it did; the only error is that memory runs out,
/// and then the expression is fit only to be dropped.
pub fn minimize_binary_expr(alloc: Global, node: &mut Node, seat: Seat) -> Result<bool, OutOfMemory>
    ensures tree { OnOk result (node.new ≡ unwrap_or (name.binary_written seat node.old) node.old) }
    ensures said { IfOk result (λ changed. changed ≡ is_some (name.binary_written seat node.old)) }
{
    match binary_operator(node) {
        Some(operator) => minimize_equality(alloc, node, seat, operator),
        None => Ok(false),
    }
}

// What a unary operator gives, or what it deletes.
#[tactic(auto, using(crate::proofs::Naming::unary_tree, crate::proofs::Naming::unary_said, crate::proofs::Naming::delete_tree, crate::proofs::Naming::delete_said))]
fn fold_unary(alloc: Global, node: &mut Node, seat: Seat) -> Result<bool, OutOfMemory>
    ensures tree { OnOk result (node.new ≡ unwrap_or (or_else (literal_written seat node.old) (delete_written (its_unary_operator node.old) (part node.old 0))) node.old) }
    ensures said { IfOk result (λ changed. changed ≡ is_some (or_else (literal_written seat node.old) (delete_written (its_unary_operator node.old) (part node.old 0)))) }
{
    if fold_literal(alloc, node, seat)? {
        Ok(true)
    } else {
        fold_delete(alloc, node)
    }
}

/// A unary operator over a constant becomes the literal of its value, where that is lighter, and
/// `delete a()` becomes `a(), !0`. The answer says whether one did; the only error is that memory
/// runs out, and then the expression is fit only to be dropped.
pub fn fold_unary_expr(alloc: Global, node: &mut Node, seat: Seat) -> Result<bool, OutOfMemory>
    ensures tree { OnOk result (node.new ≡ unwrap_or (name.unary_written seat node.old) node.old) }
    ensures said { IfOk result (λ changed. changed ≡ is_some (name.unary_written seat node.old)) }
{
    match unary_operator(node) {
        Some(_) => fold_unary(alloc, node, seat),
        None => Ok(false),
    }
}

// A side that goes, or an operand in the middle.
#[tactic(auto, using(crate::proofs::Naming::side_tree, crate::proofs::Naming::side_said, crate::proofs::Naming::middle_tree, crate::proofs::Naming::middle_said))]
fn fold_side(alloc: Global, node: &mut Node, seat: Seat) -> Result<bool, OutOfMemory>
    ensures tree { OnOk result (node.new ≡ unwrap_or (name.logical_written_by seat node.old) node.old) }
    ensures said { IfOk result (λ changed. changed ≡ is_some (name.logical_written_by seat node.old)) }
{
    if fold_logical_expression(alloc, node, seat) {
        Ok(true)
    } else {
        fold_middle(alloc, node, seat)
    }
}

/// `0 && b` becomes `0`, `1 && b` `b`, and `a || 0 || b` `a || b`: a side of `&&` or `||` goes
/// whose truth is known. The answer says whether one did; the only error is that memory runs out,
/// and then the expression is fit only to be dropped.
pub fn try_fold_and_or(alloc: Global, node: &mut Node, seat: Seat) -> Result<bool, OutOfMemory>
    ensures tree { OnOk result (node.new ≡ unwrap_or (name.and_or_written seat node.old) node.old) }
    ensures said { IfOk result (λ changed. changed ≡ is_some (name.and_or_written seat node.old)) }
{
    match logical_operator(node) {
        Some(LogicalOperator::And) => fold_side(alloc, node, seat),
        Some(LogicalOperator::Or) => fold_side(alloc, node, seat),
        _ => Ok(false),
    }
}

/// `null ?? b` becomes `b`, and `!a ?? b` `!a`: a side of `??` goes where the Kind of the left one
/// is known. The answer says whether one did.
pub fn try_fold_coalesce(alloc: Global, node: &mut Node, seat: Seat) -> bool
    ensures tree { node.new ≡ unwrap_or (name.coalesce_written seat node.old) node.old }
    ensures said { result ≡ is_some (name.coalesce_written seat node.old) }
{
    match logical_operator(node) {
        Some(LogicalOperator::Coalesce) => fold_logical_expression(alloc, node, seat),
        _ => false,
    }
}

/// A logical expression with a side that is known loses one: `??` as `try_fold_coalesce` does it,
/// `&&` and `||` as `try_fold_and_or` does. The answer says whether it did; the only error is that
/// memory runs out, and then the expression is fit only to be dropped.
pub fn fold_logical_expr(alloc: Global, node: &mut Node, seat: Seat) -> Result<bool, OutOfMemory>
    ensures tree { OnOk result (node.new ≡ unwrap_or (name.either_written seat node.old) node.old) }
    ensures said { IfOk result (λ changed. changed ≡ is_some (name.either_written seat node.old)) }
{
    match logical_operator(node) {
        Some(LogicalOperator::Coalesce) => Ok(fold_logical_expression(alloc, node, seat)),
        Some(LogicalOperator::And) => fold_side(alloc, node, seat),
        Some(LogicalOperator::Or) => fold_side(alloc, node, seat),
        None => Ok(false),
    }
}
