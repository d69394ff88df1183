//! Rows 41, 44, 45 and 46: `x ? x : b` becomes `x || b`, and `x ? b : x` becomes `x && b`, where
//! that is lighter in the seat; `a ? x = b : x = c` becomes `x = a ? b : c`, where a scope declares
//! x or a has no effect, and so of `+=` and of members where both hold, `x == null ? b : x` becomes
//! `x ?? b`, where a scope declares x, and `a ? f(p, r) : f(q, r)` becomes `f(a ? p : q, r)`, where
//! neither f nor a has an effect, which is lighter in every seat.

ghost use Rattle.std.specs.Prelude.{◌≡◌, true, Some, is_some, unwrap_or, OnOk, IfOk};
ghost use Rattle.mini_model.specs.Tree.{children, count, logical as logical_of};
ghost use Rattle.mini_node.specs.Children.{part};
ghost use Rattle.mini_node.specs.Kinds.{assignment_operator as operator_of, binary_operator as its_operator};
ghost use Rattle.mini_rows.specs.Choices.{may_choose as may_it_choose};
ghost use Rattle.mini_choices.specs.Assigning.{is_plain};
ghost use Rattle.mini_choices.specs.MinimizeConditionalBranches.{may_take as may_it_take, assigns_alike as they_assign_alike, assigns_either as it_assigns_either, assigns_indexed as they_assign_indexed, indexes_either as it_indexes_either, is_seated as is_it_seated, assigned as assigned_of, is_equal_in, is_unequal_in, is_beside_null as is_it_beside_null, is_own_if_equal as is_it_own_if_equal, is_own_if_unequal as is_it_own_if_unequal, is_own_consequent as is_it_own_consequent, is_own_alternate as is_it_own_alternate, consequent_written, written};

use crate::assigning::{assigns_by, is_declared, is_same_indexed, is_same_member, is_same_name};
use crate::calling::{called, calls_either};
use mini_model::{AssignmentOperator, BinaryOperator, LogicalOperator, OutOfMemory, Seat};
use mini_node::{
    Node, assignment, assignment_operator, binary_operator, conditional, discard, is_conditional,
    is_null, logical, taken, three, two,
};
use mini_terms::is_effect_free;
use mini_tree::{expr_weight, logical_weight};
use std::alloc::Global;

// The level of a conditional.
const CONDITIONAL_LEVEL: u8 = 2;

// Whether a choice may come after the name is resolved, and, where the operator computes, read.
fn may_choose(operator: AssignmentOperator, declared: bool, free: bool) -> bool
    ensures { result ≡ may_it_choose operator declared free }
{
    match operator {
        AssignmentOperator::Assign => declared || free,
        AssignmentOperator::LogicalOr => false,
        AssignmentOperator::LogicalAnd => false,
        AssignmentOperator::LogicalNullish => false,
        _ => declared && free,
    }
}

fn is_assign(operator: AssignmentOperator) -> bool
    ensures { result ≡ is_plain (Some operator) }
{
    operator == AssignmentOperator::Assign
}

// Whether both are one name, between writes of which by the operator the test may choose after it
// is read, or one member of a name, which is written after a test without an effect. `this` has one
// where it is asked of the world.
fn may_take(
    operator: AssignmentOperator,
    test: &Node,
    first: &Node,
    second: &Node,
    asked: bool,
) -> bool
    ensures { result ≡ may_it_take asked operator test.now first.now second.now }
{
    let free = is_effect_free(test, asked);
    is_same_name(first, second) && may_choose(operator, is_declared(first), free)
        || is_assign(operator) && is_same_member(first, second) && free
}

// Whether both are assignments to one by one operator.
fn assigns_alike(test: &Node, first: &Node, second: &Node, asked: bool) -> bool
    ensures { result ≡ they_assign_alike asked (operator_of first.now) test.now first.now second.now }
{
    match assignment_operator(first) {
        Some(operator) => {
            assigns_by(operator, second)
                && may_take(operator, test, first.child(0), second.child(0), asked)
        }
        None => false,
    }
}

/// Whether the expression is `a ? x = b : x = c`, `a ? x += b : x += c`, or
/// `a ? x.k = b : x.k = c`, where the test may come after what is assigned to is known. `asked`
/// says that `this` is asked of the world, and so has an effect.
pub fn assigns_either(node: &Node, asked: bool) -> bool
    ensures { result ≡ it_assigns_either asked node.now }
{
    is_conditional(node) && assigns_alike(node.child(0), node.child(1), node.child(2), asked)
}

// Whether it is an assignment by `=`.
fn assigns_plainly(node: &Node) -> bool
    ensures kind { result ≡ is_plain (operator_of node.now) }
    ensures parts { result ≡ true → count (children node.now) ≡ 2 }
{
    match assignment_operator(node) {
        Some(AssignmentOperator::Assign) => true,
        _ => false,
    }
}

// Whether both are assignments to one member of a name by `=`, whose key in brackets has no effect.
fn assigns_indexed(first: &Node, second: &Node, asked: bool) -> bool
    ensures { result ≡ they_assign_indexed asked first.now second.now }
{
    assigns_plainly(first)
        && assigns_plainly(second)
        && is_same_indexed(first.child(0), second.child(0), asked)
}

/// Whether the expression is `a ? x[k] = b : x[k] = c`, where evaluating a has no effect. `asked`
/// says that `this` is asked of the world, and so has an effect.
pub fn indexes_either(node: &Node, asked: bool) -> bool
    ensures { result ≡ it_indexes_either asked node.now }
{
    is_conditional(node)
        && assigns_indexed(node.child(1), node.child(2), asked)
        && is_effect_free(node.child(0), asked)
}

/// Whether an assignment stands in the seat as a conditional does.
pub fn is_seated(seat: Seat) -> bool
    ensures { result ≡ is_it_seated seat }
{
    seat.level != CONDITIONAL_LEVEL
}

/// `x = a ? b : c` of `a ? x = b : x = c`, and so of other operators and whatever is assigned to.
/// The only error is that memory runs out.
pub fn assigned(alloc: Global, node: Node) -> Result<Node, OutOfMemory>
    ensures { IfOk result (λ w. w ≡ assigned_of node) }
{
    let (test, consequent, alternate) = three(node);
    let operator = assignment_operator(&consequent).unwrap_or(AssignmentOperator::Assign);
    let (target, first) = two(consequent);
    let (other, second) = two(alternate);
    discard(other);
    let value = conditional(alloc, test, first, second)?;
    assignment(alloc, operator, target, value)
}

/// Whether the expression is `a == b`.
pub fn is_equal(node: &Node) -> bool
    ensures kind { result ≡ is_equal_in (its_operator node.now) }
    ensures parts { result ≡ true → count (children node.now) ≡ 2 }
{
    match binary_operator(node) {
        Some(BinaryOperator::Equality) => true,
        _ => false,
    }
}

/// Whether the expression is `a != b`.
pub fn is_unequal(node: &Node) -> bool
    ensures kind { result ≡ is_unequal_in (its_operator node.now) }
    ensures parts { result ≡ true → count (children node.now) ≡ 2 }
{
    match binary_operator(node) {
        Some(BinaryOperator::Inequality) => true,
        _ => false,
    }
}

// Whether a comparison is of this name, which a scope declares, with null.
fn is_beside_null(comparison: &Node, name: &Node) -> bool
    requires { count (children comparison.now) ≡ 2 }
    ensures { result ≡ is_it_beside_null comparison.now name.now }
{
    is_null(comparison.child(1)) && is_same_name(comparison.child(0), name) && is_declared(name)
}

// `x == null ? b : x`
fn is_own_if_equal(node: &Node) -> bool
    ensures { result ≡ is_it_own_if_equal node.now }
{
    is_conditional(node) && is_equal(node.child(0)) && is_beside_null(node.child(0), node.child(2))
}

// `x != null ? x : b`
fn is_own_if_unequal(node: &Node) -> bool
    ensures { result ≡ is_it_own_if_unequal node.now }
{
    is_conditional(node)
        && is_unequal(node.child(0))
        && is_beside_null(node.child(0), node.child(1))
}

// `x ? x : b`, where `x || b` is lighter
fn is_own_consequent(node: &Node, seat: Seat) -> bool
    ensures { result ≡ is_it_own_consequent seat node.now }
{
    is_conditional(node)
        && is_same_name(node.child(0), node.child(1))
        && logical_weight(LogicalOperator::Or, node.child(0), node.child(2), seat)
            < expr_weight(node, seat)
}

// `x ? b : x`, where `x && b` is lighter
fn is_own_alternate(node: &Node, seat: Seat) -> bool
    ensures { result ≡ is_it_own_alternate seat node.now }
{
    is_conditional(node)
        && is_same_name(node.child(0), node.child(2))
        && logical_weight(LogicalOperator::And, node.child(0), node.child(1), seat)
            < expr_weight(node, seat)
}

// `x ?? b` of `x == null ? b : x`
fn with_alternate(alloc: Global, node: Node) -> Result<Node, OutOfMemory>
    ensures { IfOk result (λ w. w ≡ logical_of LogicalOperator.Coalesce (part node 2) (part node 1)) }
{
    let (test, consequent, alternate) = three(node);
    discard(test);
    logical(alloc, LogicalOperator::Coalesce, alternate, consequent)
}

// `x ?? b` of `x != null ? x : b`
fn with_consequent(alloc: Global, node: Node) -> Result<Node, OutOfMemory>
    ensures { IfOk result (λ w. w ≡ logical_of LogicalOperator.Coalesce (part node 1) (part node 2)) }
{
    let (test, consequent, alternate) = three(node);
    discard(test);
    logical(alloc, LogicalOperator::Coalesce, consequent, alternate)
}

// `x || b` of `x ? x : b`
fn or_alternate(alloc: Global, node: Node) -> Result<Node, OutOfMemory>
    ensures { IfOk result (λ w. w ≡ logical_of LogicalOperator.Or (part node 0) (part node 2)) }
{
    let (test, consequent, alternate) = three(node);
    discard(consequent);
    logical(alloc, LogicalOperator::Or, test, alternate)
}

// `x && b` of `x ? b : x`
fn and_consequent(alloc: Global, node: Node) -> Result<Node, OutOfMemory>
    ensures { IfOk result (λ w. w ≡ logical_of LogicalOperator.And (part node 0) (part node 1)) }
{
    let (test, consequent, alternate) = three(node);
    discard(alternate);
    logical(alloc, LogicalOperator::And, test, consequent)
}

/// `x ? x : b` becomes `x || b`, `x ? b : x` becomes `x && b`, `a ? x = b : x = c` becomes
/// `x = a ? b : c`, and so of `+=`, and `a ? f(p, r) : f(q, r)` becomes `f(a ? p : q, r)`. The
/// answer says whether it did; the only error is that memory runs out, and then the expression is
/// fit only to be dropped.
pub fn minimize_older_branches(
    alloc: Global,
    node: &mut Node,
    seat: Seat,
) -> Result<bool, OutOfMemory>
    ensures tree { OnOk result (node.new ≡ unwrap_or (consequent_written seat node.old) node.old) }
    ensures said { IfOk result (λ changed. changed ≡ is_some (consequent_written seat node.old)) }
{
    let made = if is_own_consequent(node, seat) {
        or_alternate(alloc, taken(alloc, node))?
    } else if is_own_alternate(node, seat) {
        and_consequent(alloc, taken(alloc, node))?
    } else if is_seated(seat) && assigns_either(node, true) {
        assigned(alloc, taken(alloc, node))?
    } else if is_seated(seat) && indexes_either(node, true) {
        assigned(alloc, taken(alloc, node))?
    } else if calls_either(node, true) {
        called(alloc, taken(alloc, node))?
    } else {
        return Ok(false);
    };
    *node = made;
    Ok(true)
}

/// `x == null ? b : x` becomes `x ?? b`, and what `minimize_older_branches` changes becomes what
/// that makes of it. The answer says whether it did; the only error is that memory runs out, and
/// then the expression is fit only to be dropped.
pub fn minimize_conditional_branches(
    alloc: Global,
    node: &mut Node,
    seat: Seat,
) -> Result<bool, OutOfMemory>
    ensures tree { OnOk result (node.new ≡ unwrap_or (written seat node.old) node.old) }
    ensures said { IfOk result (λ changed. changed ≡ is_some (written seat node.old)) }
{
    let made = if is_own_if_equal(node) {
        with_alternate(alloc, taken(alloc, node))?
    } else if is_own_if_unequal(node) {
        with_consequent(alloc, taken(alloc, node))?
    } else {
        return minimize_older_branches(alloc, node, seat);
    };
    *node = made;
    Ok(true)
}
