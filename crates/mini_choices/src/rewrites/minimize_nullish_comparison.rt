//! Row 37: `x === null || x === undefined` becomes `x == null`, which is lighter in every seat.

ghost use Rattle.std.specs.Prelude.{◌≡◌, true, is_some, unwrap_or, OnOk, IfOk, IfSome};
ghost use Rattle.mini_model.specs.Tree.{children, count};
ghost use Rattle.mini_node.specs.Children.{part};
ghost use Rattle.mini_node.specs.Kinds.{logical_operator as its_operator};
ghost use Rattle.mini_rows.specs.Choices.{loosely as loosely_of, joining as joining_of};
ghost use Rattle.mini_choices.specs.MinimizeNullishComparison.{joins_in, is_strict as is_it_strict, compares as they_compare, compares_after as it_compares_after, loose as loose_of, after as after_of, written};

use crate::assigning::is_same_name;
use crate::forms::are_nullish;
use mini_model::{BinaryOperator, LogicalOperator, OutOfMemory};
use mini_node::{
    Node, binary, binary_operator, discard, is_logical, logical, logical_operator, null_literal,
    one, taken, two,
};
use std::alloc::Global;

/// What joins equalities, or inequalities.
pub fn joining(equal: bool) -> LogicalOperator
    ensures { result ≡ joining_of equal }
{
    if equal {
        LogicalOperator::Or
    } else {
        LogicalOperator::And
    }
}

fn loosely(equal: bool) -> BinaryOperator
    ensures { result ≡ loosely_of equal }
{
    if equal {
        BinaryOperator::Equality
    } else {
        BinaryOperator::Inequality
    }
}

/// Whether the operator joins equalities or inequalities.
pub fn joins(node: &Node) -> Option<bool>
    ensures kind { result ≡ joins_in (its_operator node.now) }
    ensures parts { IfSome result (λ equal. count (children node.now) ≡ 2) }
{
    match logical_operator(node) {
        Some(LogicalOperator::Or) => Some(true),
        Some(LogicalOperator::And) => Some(false),
        _ => None,
    }
}

/// `===` of equalities, `!==` of inequalities
pub fn is_strict(equal: bool, node: &Node) -> bool
    ensures kind { result ≡ is_it_strict equal node.now }
    ensures parts { result ≡ true → count (children node.now) ≡ 2 }
{
    match binary_operator(node) {
        Some(BinaryOperator::StrictEquality) => equal,
        Some(BinaryOperator::StrictInequality) => !equal,
        _ => false,
    }
}

// Whether both compare one name, with null and with undefined.
fn compares(equal: bool, first: &Node, second: &Node) -> bool
    ensures { result ≡ they_compare equal first.now second.now }
{
    is_strict(equal, first)
        && is_strict(equal, second)
        && is_same_name(first.child(0), second.child(0))
        && are_nullish(first.child(1), second.child(1))
}

// Whether the second of two behind an equal operator and what follows it do.
fn compares_after(equal: bool, node: &Node) -> bool
    requires { count (children node.now) ≡ 2 }
    ensures { result ≡ it_compares_after equal node.now }
{
    is_logical(node.child(0), joining(equal))
        && compares(equal, node.child(0).child(1), node.child(1))
}

// `x == null` of a comparison of x
fn loose(alloc: Global, equal: bool, comparison: Node) -> Result<Node, OutOfMemory>
    ensures { IfOk result (λ w. w ≡ loose_of equal comparison) }
{
    binary(alloc, loosely(equal), one(comparison), null_literal(alloc))
}

/// What is written for two comparisons: `x == null`, or `x != null` of inequalities. The only error
/// is that memory runs out.
pub fn alone(alloc: Global, equal: bool, node: Node) -> Result<Node, OutOfMemory>
    ensures { IfOk result (λ w. w ≡ loose_of equal (part node 0)) }
{
    let (first, second) = two(node);
    discard(second);
    loose(alloc, equal, first)
}

/// What is written for two comparisons, the first behind an equal operator: `a || x == null`, or
/// `a && x != null` of inequalities. The only error is that memory runs out.
pub fn after(alloc: Global, equal: bool, node: Node) -> Result<Node, OutOfMemory>
    ensures { IfOk result (λ w. w ≡ after_of equal node) }
{
    let (left, second) = two(node);
    discard(second);
    let (before, first) = two(left);
    let made = loose(alloc, equal, first)?;
    logical(alloc, joining(equal), before, made)
}

/// `x === null || x === undefined` becomes `x == null`, and `x !== null && x !== undefined` becomes
/// `x != null`, in any order, and after an equal operator to the left. The answer says whether it
/// did; the only error is that memory runs out, and then the expression is fit only to be dropped.
pub fn minimize_nullish_comparison(alloc: Global, node: &mut Node) -> Result<bool, OutOfMemory>
    ensures tree { OnOk result (node.new ≡ unwrap_or (written node.old) node.old) }
    ensures said { IfOk result (λ changed. changed ≡ is_some (written node.old)) }
{
    let Some(equal) = joins(node) else {
        return Ok(false);
    };
    let made = if compares(equal, node.child(0), node.child(1)) {
        alone(alloc, equal, taken(alloc, node))?
    } else if compares_after(equal, node) {
        after(alloc, equal, taken(alloc, node))?
    } else {
        return Ok(false);
    };
    *node = made;
    Ok(true)
}
