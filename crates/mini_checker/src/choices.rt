//! The rows on conditionals, logical expressions and `if`: 39, 40, 41, 42 and 82. Each function
//! makes what one form of a row writes for a node, if it fits. The only error is that memory runs
//! out.

ghost use Rattle.std.specs.Prelude.{◌≡◌, ◌&&◌, true, option_and_then, IfOk, IfSome};
ghost use Rattle.mini_model.specs.Terms.{has_negated_result as has_a_negated_result};
ghost use Rattle.mini_model.specs.Tree.{children, count};
ghost use Rattle.mini_node.specs.Children.{part};
ghost use Rattle.mini_node.specs.Equal.{same_tree};
ghost use Rattle.mini_node.specs.Kinds as kind;
ghost use Rattle.mini_rows.specs.Nesting as join;
ghost use Rattle.mini_log.specs.ChoiceRows as row;

use crate::copying::copy_node;
use crate::making::{binary_of, conditional_of, logical_of};
use mini_model::{BinaryOperator, LogicalOperator, OutOfMemory, Shape, UnaryOperator};
use mini_node::{
    Node, binary_operator, conditional, expression_statement, is_conditional,
    is_expression_statement, is_identifier, is_if_alone, is_if_statement, is_logical, is_negation,
    is_same_tree, logical, logical_operator,
};
use mini_rows::may_join;
use std::alloc::Global;

// ---- 39

fn is_same(own: LogicalOperator, operator: LogicalOperator) -> bool
    ensures { result ≡ kind.same_logical own operator }
{
    match (own, operator) {
        (LogicalOperator::And, LogicalOperator::And) => true,
        (LogicalOperator::Or, LogicalOperator::Or) => true,
        (LogicalOperator::Coalesce, LogicalOperator::Coalesce) => true,
        _ => false,
    }
}

fn is_apart(operator: LogicalOperator, node: &Node) -> bool
    ensures { result ≡ row.is_apart operator node.now }
{
    match node.shape() {
        Shape::LogicalExpression(own) => !is_same(*own, operator),
        Shape::InnerExpression => false,
        _ => true,
    }
}

// `b op c`, where b is no expression of the operator
fn is_nested(operator: LogicalOperator, node: &Node) -> bool
    ensures kind { result ≡ (kind.is_logical operator node.now && row.is_apart operator (part node.now 0)) }
    ensures parts { result ≡ true → count (children node.now) ≡ 2 }
{
    is_logical(node, operator) && is_apart(operator, node.child(0))
}

fn rotated_by(
    alloc: Global,
    node: &Node,
    operator: LogicalOperator,
) -> Result<Option<Node>, OutOfMemory>
    requires { count (children node.now) ≡ 2 }
    ensures { IfOk result (λ w. w ≡ row.rotated_by node.now operator) }
{
    let right = node.child(1);
    if is_nested(operator, right) {
        let left = logical_of(alloc, operator, node.child(0), right.child(0))?;
        let last = copy_node(alloc, right.child(1))?;
        Ok(Some(logical(alloc, operator, left, last)?))
    } else {
        Ok(None)
    }
}

/// 39: `a op (b op c)` becomes `(a op b) op c`.
pub fn rotated(alloc: Global, node: &Node) -> Result<Option<Node>, OutOfMemory>
    ensures { IfOk result (λ w. w ≡ row.rotated node.now) }
{
    match logical_operator(node) {
        Some(operator) => rotated_by(alloc, node, operator),
        None => Ok(None),
    }
}

// ---- 40

fn chooses_by_negation(node: &Node) -> bool
    ensures kind { result ≡ (kind.is_conditional node.now && kind.is_negation (part node.now 0)) }
    ensures parts { result ≡ true → count (children node.now) ≡ 3 }
    ensures inner { result ≡ true → count (children (part node.now 0)) ≡ 1 }
{
    is_conditional(node) && is_negation(node.child(0))
}

/// 40: `!a ? b : c` becomes `a ? c : b`.
pub fn swapped(alloc: Global, node: &Node) -> Result<Option<Node>, OutOfMemory>
    ensures { IfOk result (λ w. w ≡ row.swapped node.now) }
{
    if chooses_by_negation(node) {
        let test = node.child(0).child(0);
        Ok(Some(conditional_of(alloc, test, node.child(2), node.child(1))?))
    } else {
        Ok(None)
    }
}

fn turned_equal(operator: BinaryOperator) -> Option<BinaryOperator>
    ensures { result ≡ row.turned_equal operator }
{
    match operator {
        BinaryOperator::Inequality => Some(BinaryOperator::Equality),
        BinaryOperator::StrictInequality => Some(BinaryOperator::StrictEquality),
        _ => None,
    }
}

fn swapped_by(
    alloc: Global,
    node: &Node,
    operator: BinaryOperator,
) -> Result<Option<Node>, OutOfMemory>
    requires parts { count (children node.now) ≡ 3 }
    requires kind { kind.is_conditional node.now ≡ true }
    requires inner { count (children (part node.now 0)) ≡ 2 }
    ensures { IfOk result (λ w. w ≡ row.swapped_by node.now operator) }
{
    let inner = node.child(0);
    let test = binary_of(alloc, operator, inner.child(0), inner.child(1))?;
    let consequent = copy_node(alloc, node.child(2))?;
    let alternate = copy_node(alloc, node.child(1))?;
    Ok(Some(conditional(alloc, test, consequent, alternate)?))
}

// The equality for an inequality.
fn equal_operator(node: &Node) -> Option<BinaryOperator>
    ensures kind { result ≡ option_and_then row.turned_equal (kind.binary_operator node.now) }
    ensures parts { IfSome result (λ o. count (children node.now) ≡ 2) }
{
    match binary_operator(node) {
        Some(operator) => turned_equal(operator),
        None => None,
    }
}

/// 40: `a != b ? c : d` becomes `a == b ? d : c`, and so of `!==`.
pub fn swapped_equal(alloc: Global, node: &Node) -> Result<Option<Node>, OutOfMemory>
    ensures { IfOk result (λ w. w ≡ row.swapped_equal node.now) }
{
    if is_conditional(node) {
        match equal_operator(node.child(0)) {
            Some(operator) => swapped_by(alloc, node, operator),
            None => Ok(None),
        }
    } else {
        Ok(None)
    }
}

// ---- 41, 42

fn has_own_consequent(node: &Node) -> bool
    ensures kind { result ≡ (kind.is_conditional node.now && (kind.is_identifier (part node.now 0) && same_tree (part node.now 0) (part node.now 1))) }
    ensures parts { result ≡ true → count (children node.now) ≡ 3 }
{
    is_conditional(node)
        && (is_identifier(node.child(0)) && is_same_tree(node.child(0), node.child(1)))
}

/// 41: `x ? x : b` becomes `x || b`.
pub fn own_consequent(alloc: Global, node: &Node) -> Result<Option<Node>, OutOfMemory>
    ensures { IfOk result (λ w. w ≡ row.own_consequent node.now) }
{
    if has_own_consequent(node) {
        let made = logical_of(alloc, LogicalOperator::Or, node.child(0), node.child(2))?;
        Ok(Some(made))
    } else {
        Ok(None)
    }
}

fn has_own_alternate(node: &Node) -> bool
    ensures kind { result ≡ (kind.is_conditional node.now && (kind.is_identifier (part node.now 0) && same_tree (part node.now 0) (part node.now 2))) }
    ensures parts { result ≡ true → count (children node.now) ≡ 3 }
{
    is_conditional(node)
        && (is_identifier(node.child(0)) && is_same_tree(node.child(0), node.child(2)))
}

/// 41: `x ? b : x` becomes `x && b`.
pub fn own_alternate(alloc: Global, node: &Node) -> Result<Option<Node>, OutOfMemory>
    ensures { IfOk result (λ w. w ≡ row.own_alternate node.now) }
{
    if has_own_alternate(node) {
        let made = logical_of(alloc, LogicalOperator::And, node.child(0), node.child(1))?;
        Ok(Some(made))
    } else {
        Ok(None)
    }
}

fn has_same_alternate(node: &Node) -> bool
    ensures kind { result ≡ (kind.is_conditional node.now && (kind.is_conditional (part node.now 1) && (same_tree (part (part node.now 1) 2) (part node.now 2) && join.may_join (part node.now 0) (part (part node.now 1) 0)))) }
    ensures parts { result ≡ true → count (children node.now) ≡ 3 }
    ensures inner { result ≡ true → count (children (part node.now 1)) ≡ 3 }
{
    is_conditional(node)
        && (is_conditional(node.child(1))
            && (is_same_tree(node.child(1).child(2), node.child(2))
                && may_join(node.child(0), node.child(1).child(0))))
}

/// 42: `a ? b ? c : d : d` becomes `a && b ? c : d`.
pub fn same_alternate(alloc: Global, node: &Node) -> Result<Option<Node>, OutOfMemory>
    ensures { IfOk result (λ w. w ≡ row.same_alternate node.now) }
{
    if has_same_alternate(node) {
        let inner = node.child(1);
        let test = logical_of(alloc, LogicalOperator::And, node.child(0), inner.child(0))?;
        let consequent = copy_node(alloc, inner.child(1))?;
        let alternate = copy_node(alloc, node.child(2))?;
        Ok(Some(conditional(alloc, test, consequent, alternate)?))
    } else {
        Ok(None)
    }
}

fn has_same_consequent(node: &Node) -> bool
    ensures kind { result ≡ (kind.is_conditional node.now && (kind.is_conditional (part node.now 2) && (same_tree (part node.now 1) (part (part node.now 2) 1) && join.may_join (part node.now 0) (part (part node.now 2) 0)))) }
    ensures parts { result ≡ true → count (children node.now) ≡ 3 }
    ensures inner { result ≡ true → count (children (part node.now 2)) ≡ 3 }
{
    is_conditional(node)
        && (is_conditional(node.child(2))
            && (is_same_tree(node.child(1), node.child(2).child(1))
                && may_join(node.child(0), node.child(2).child(0))))
}

/// 42: `a ? b : c ? b : d` becomes `a || c ? b : d`.
pub fn same_consequent(alloc: Global, node: &Node) -> Result<Option<Node>, OutOfMemory>
    ensures { IfOk result (λ w. w ≡ row.same_consequent node.now) }
{
    if has_same_consequent(node) {
        let inner = node.child(2);
        let test = logical_of(alloc, LogicalOperator::Or, node.child(0), inner.child(0))?;
        let consequent = copy_node(alloc, node.child(1))?;
        let alternate = copy_node(alloc, inner.child(2))?;
        Ok(Some(conditional(alloc, test, consequent, alternate)?))
    } else {
        Ok(None)
    }
}

// ---- 82

/// Whether the result of the expression is a `!`, as it stands.
pub fn has_negated_result(node: &Node) -> bool
    ensures { result ≡ has_a_negated_result node.now }
{
    matches!(
        node.shape(),
        Shape::UnaryExpression(UnaryOperator::LogicalNot)
    )
}

fn is_two_branched(node: &Node) -> bool
    ensures kind { result ≡ row.is_two_branched node.now }
    ensures parts { result ≡ true → count (children node.now) ≡ 3 }
    ensures first { result ≡ true → count (children (part node.now 1)) ≡ 1 }
    ensures second { result ≡ true → count (children (part node.now 2)) ≡ 1 }
{
    is_if_statement(node)
        && (is_expression_statement(node.child(1)) && is_expression_statement(node.child(2)))
}

/// Whether the node is `if (a) b;` of an expression statement.
pub fn is_one_branched(node: &Node) -> bool
    ensures kind { result ≡ row.is_one_branched node.now }
    ensures parts { result ≡ true → count (children node.now) ≡ 3 }
    ensures inner { result ≡ true → count (children (part node.now 1)) ≡ 1 }
{
    is_if_alone(node) && is_expression_statement(node.child(1))
}

/// 82: `if (a) b; else c;` becomes `a ? b : c`.
pub fn chosen(alloc: Global, node: &Node) -> Result<Option<Node>, OutOfMemory>
    ensures { IfOk result (λ w. w ≡ row.chosen node.now) }
{
    if is_two_branched(node) {
        let consequent = node.child(1).child(0);
        let alternate = node.child(2).child(0);
        let chosen = conditional_of(alloc, node.child(0), consequent, alternate)?;
        Ok(Some(expression_statement(alloc, chosen)?))
    } else {
        Ok(None)
    }
}

/// 82: `if (a) b;` becomes `a && b`.
pub fn conjoined(alloc: Global, node: &Node) -> Result<Option<Node>, OutOfMemory>
    ensures { IfOk result (λ w. w ≡ row.conjoined node.now) }
{
    if is_one_branched(node) && !has_negated_result(node.child(0)) {
        let then = node.child(1).child(0);
        let joined = logical_of(alloc, LogicalOperator::And, node.child(0), then)?;
        Ok(Some(expression_statement(alloc, joined)?))
    } else {
        Ok(None)
    }
}
