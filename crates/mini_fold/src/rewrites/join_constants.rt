//! Rows 4 and 8 of constants that aren't written out: two operands that do nothing but give their
//! values are one. `a + "s" + (1 << 14)` becomes `a + "s16384"`, and `a & (1 << 14) & -1`
//! `a & 16384`, where that is lighter.

ghost use Rattle.std.specs.Prelude.{◌≡◌, true, false, is_some, unwrap_or, Some, None, OnOk, IfOk};
ghost use Rattle.mini_model.specs.Tree.{children, count};
ghost use Rattle.mini_model.specs.Weight.{capped};
ghost use Rattle.mini_node.specs.Children.{part};
ghost use Rattle.mini_node.specs.Kinds.{binary_operator as its_binary_operator};
ghost use Rattle.mini_terms.specs.Calculated.{operand_value as value_of_operand};
ghost use Rattle.mini_terms.specs.Values.{value as value_of, value_in};
ghost use Rattle.mini_rows.specs.Constants as row;
ghost use Rattle.mini_fold.specs.JoinConstants as join;

use crate::rewrites::fold_operands::last;
use mini_model::{BinaryOperator, OutOfMemory};
use mini_node::{Node, binary, binary_operator, one, taken};
use mini_terms::{ConstantValue, calculated_binary, leaves_nothing, operand_value, value_to_expr};
use mini_tree::{expr_weight, seats};
use std::alloc::Global;

/// The literal of a value.
pub fn literal_of(alloc: Global, value: Option<ConstantValue>) -> Result<Option<Node>, OutOfMemory>
    ensures { IfOk result (λ w. w ≡ join.literal_of (value_in value)) }
{
    match value {
        Some(known) => Ok(Some(value_to_expr(alloc, known)?)),
        None => Ok(None),
    }
}

// Whether two values are one beside another operand.
fn may_join(
    operator: BinaryOperator,
    on_right: bool,
    before: &ConstantValue,
    after: &ConstantValue,
) -> bool
    ensures { result ≡ row.may_join operator on_right (value_of before.now) (value_of after.now) }
{
    match (operator, before, after) {
        (BinaryOperator::Addition, ConstantValue::String(_), _) => on_right,
        (BinaryOperator::BitwiseAnd, ConstantValue::Number(_), ConstantValue::Number(_)) => true,
        (BinaryOperator::BitwiseXor, ConstantValue::Number(_), ConstantValue::Number(_)) => true,
        (BinaryOperator::BitwiseOr, ConstantValue::Number(_), ConstantValue::Number(_)) => true,
        _ => false,
    }
}

fn joined_value(
    alloc: Global,
    operator: BinaryOperator,
    on_right: bool,
    before: ConstantValue,
    after: ConstantValue,
) -> Result<Option<ConstantValue>, OutOfMemory>
    ensures { IfOk result (λ v. value_in v ≡ join.joined_value operator on_right (value_of before) (value_of after)) }
{
    if may_join(operator, on_right, &before, &after) {
        calculated_binary(alloc, operator, before, after)
    } else {
        Ok(None)
    }
}

fn value_with(
    alloc: Global,
    operator: BinaryOperator,
    on_right: bool,
    first: &Node,
    after: ConstantValue,
) -> Result<Option<ConstantValue>, OutOfMemory>
    ensures { IfOk result (λ v. value_in v ≡ join.value_with operator on_right (value_of_operand first.now) (value_of after)) }
{
    match operand_value(alloc, first)? {
        Some(before) => joined_value(alloc, operator, on_right, before, after),
        None => Ok(None),
    }
}

fn value_of_both(
    alloc: Global,
    operator: BinaryOperator,
    on_right: bool,
    first: &Node,
    second: &Node,
) -> Result<Option<ConstantValue>, OutOfMemory>
    ensures { IfOk result (λ v. value_in v ≡ join.value_of_both operator on_right (value_of_operand first.now) (value_of_operand second.now)) }
{
    match operand_value(alloc, second)? {
        Some(after) => value_with(alloc, operator, on_right, first, after),
        None => Ok(None),
    }
}

// The literal of both.
fn joined_literal(
    alloc: Global,
    operator: BinaryOperator,
    on_right: bool,
    first: &Node,
    second: &Node,
) -> Result<Option<Node>, OutOfMemory>
    ensures { IfOk result (λ w. w ≡ join.joined_literal operator on_right first.now second.now) }
{
    let value = value_of_both(alloc, operator, on_right, first, second)?;
    literal_of(alloc, value)
}

// What an operand and another weigh, on its right or on its left.
#[tactic(auto, using(crate::proofs::Joins::capped_sum))]
fn beside_weight(operator: BinaryOperator, on_right: bool, operand: &Node, other: &Node) -> u64
    ensures { result ≡ capped (join.beside_weight operator on_right operand.now other.now) }
{
    let left = seats::binary_left_operand(operator);
    let right = seats::binary_right_operand(operator);
    if on_right {
        expr_weight(operand, left).saturating_add(expr_weight(other, right))
    } else {
        expr_weight(other, left).saturating_add(expr_weight(operand, right))
    }
}

// What the operator weighs that goes.
fn sign_weight(operator: BinaryOperator) -> u64
    ensures { result ≡ join.sign_weight operator }
{
    match operator {
        BinaryOperator::BitwiseXor => 4,
        _ => 2,
    }
}

// What an operand weighs with one more operand and the operator before it.
#[tactic(auto, using(crate::proofs::Joins::capped_both))]
fn both_weight(
    operator: BinaryOperator,
    on_right: bool,
    operand: &Node,
    first: &Node,
    second: &Node,
) -> u64
    ensures { result ≡ capped (join.both_weight operator on_right operand.now first.now second.now) }
{
    let inner = beside_weight(operator, on_right, operand, first);
    let rest = expr_weight(second, seats::binary_right_operand(operator));
    inner
        .saturating_add(rest)
        .saturating_add(sign_weight(operator))
}

// Whether a literal may stand in their place, and is lighter.
fn replaces(
    operator: BinaryOperator,
    on_right: bool,
    operand: &Node,
    first: &Node,
    second: &Node,
    literal: &Node,
) -> bool
    ensures { result ≡ join.replaces operator on_right operand.now first.now second.now literal.now }
{
    leaves_nothing(first)
        && leaves_nothing(second)
        && beside_weight(operator, true, operand, literal)
            < both_weight(operator, on_right, operand, first, second)
}

// The literal in the place of both.
fn joined(
    alloc: Global,
    operator: BinaryOperator,
    on_right: bool,
    operand: &Node,
    first: &Node,
    second: &Node,
) -> Result<Option<Node>, OutOfMemory>
    ensures { IfOk result (λ w. w ≡ join.joined operator on_right operand.now first.now second.now) }
{
    match joined_literal(alloc, operator, on_right, first, second)? {
        Some(literal) if replaces(operator, on_right, operand, first, second, &literal) => {
            Ok(Some(literal))
        }
        _ => Ok(None),
    }
}

// Whether an operator of this kind stands over the same one.
fn holds_same(operator: BinaryOperator, node: &Node) -> bool
    ensures kind { result ≡ join.holds_same operator (its_binary_operator node.now) }
    ensures parts { result ≡ true → count (children node.now) ≡ 2 }
{
    match (operator, binary_operator(node)) {
        (BinaryOperator::Addition, Some(BinaryOperator::Addition)) => true,
        (BinaryOperator::BitwiseAnd, Some(BinaryOperator::BitwiseAnd)) => true,
        (BinaryOperator::BitwiseXor, Some(BinaryOperator::BitwiseXor)) => true,
        (BinaryOperator::BitwiseOr, Some(BinaryOperator::BitwiseOr)) => true,
        _ => false,
    }
}

fn first_of_first(node: Node) -> Node
    ensures { result ≡ part (part node 0) 0 }
{
    one(one(node))
}

fn second_of_first(node: Node) -> Node
    ensures { result ≡ part (part node 0) 1 }
{
    last(one(node))
}

// `a & 2` of `6 & a & 3`
fn join_left(alloc: Global, node: &mut Node, operator: BinaryOperator) -> Result<bool, OutOfMemory>
    requires inner { count (children (part node.old 0)) ≡ 2 }
    requires outer { count (children node.old) ≡ 2 }
    ensures tree { OnOk result (node.new ≡ unwrap_or (join.with_operand operator (part (part node.old 0) 1) (join.joined operator false (part (part node.old 0) 1) (part (part node.old 0) 0) (part node.old 1)) None) node.old) }
    ensures said { IfOk result (λ changed. changed ≡ is_some (join.with_operand operator (part (part node.old 0) 1) (join.joined operator false (part (part node.old 0) 1) (part (part node.old 0) 0) (part node.old 1)) None)) }
{
    let inner = node.child(0);
    let made = joined(
        alloc,
        operator,
        false,
        inner.child(1),
        inner.child(0),
        node.child(1),
    )?;
    let Some(literal) = made else {
        return Ok(false);
    };
    let operand = second_of_first(taken(alloc, node));
    *node = binary(alloc, operator, operand, literal)?;
    Ok(true)
}

// `a + "st"` of `a + "s" + "t"`, and else the same with the constant on the left.
fn join_within(
    alloc: Global,
    node: &mut Node,
    operator: BinaryOperator,
) -> Result<bool, OutOfMemory>
    requires inner { count (children (part node.old 0)) ≡ 2 }
    requires outer { count (children node.old) ≡ 2 }
    ensures tree { OnOk result (node.new ≡ unwrap_or (join.within operator (part node.old 0) (part node.old 1)) node.old) }
    ensures said { IfOk result (λ changed. changed ≡ is_some (join.within operator (part node.old 0) (part node.old 1))) }
{
    let inner = node.child(0);
    let made = joined(
        alloc,
        operator,
        true,
        inner.child(0),
        inner.child(1),
        node.child(1),
    )?;
    let Some(literal) = made else {
        return join_left(alloc, node, operator);
    };
    let operand = first_of_first(taken(alloc, node));
    *node = binary(alloc, operator, operand, literal)?;
    Ok(true)
}

/// Two operands that do nothing but give their values become one, where that is lighter. The answer
/// says whether they did; the only error is that memory runs out, and then the expression is fit
/// only to be dropped.
pub fn join_constants(alloc: Global, node: &mut Node) -> Result<bool, OutOfMemory>
    ensures tree { OnOk result (node.new ≡ unwrap_or (join.joined_written node.old) node.old) }
    ensures said { IfOk result (λ changed. changed ≡ is_some (join.joined_written node.old)) }
{
    let Some(operator) = binary_operator(node) else {
        return Ok(false);
    };
    if holds_same(operator, node.child(0)) {
        join_within(alloc, node, operator)
    } else {
        Ok(false)
    }
}
