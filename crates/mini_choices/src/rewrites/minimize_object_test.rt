//! Row 57: `typeof x == "object" && x !== null` becomes `typeof x == "object" && !!x`, which is
//! lighter in every seat.

ghost use Rattle.std.specs.Prelude.{◌≡◌, true, not, is_some, unwrap_or, OnOk, IfOk, IfSome};
ghost use Rattle.mini_model.specs.Tree.{children, count};
ghost use Rattle.mini_node.specs.Children.{part};
ghost use Rattle.mini_node.specs.Kinds.{logical_operator as its_operator, binary_operator as operator_of, unary_operator as unary_of, string as string_of};
ghost use Rattle.mini_rows.specs.Choices.{joining as joining_of};
ghost use Rattle.mini_choices.specs.MinimizeObjectTest.{says_in, asks as it_asks, compares as it_compares, are_both as are_they_both, held as held_of, last_of, last_held as last_held_of, second_held as second_held_of, first_held as first_held_of, is_loose_in, is_equal_in, is_typeof_in, says_object_in, written};

use crate::assigning::{is_declared, is_same_name};
use mini_model::{BinaryOperator, LogicalOperator, OutOfMemory, UnaryOperator};
use mini_node::{
    Node, binary_operator, is_logical, is_null, logical, logical_operator, negation, one, string,
    taken, two, unary_operator,
};
use std::alloc::Global;

// The units of `object`.
const OBJECT: [u16; 6] = [111, 98, 106, 101, 99, 116];

// The operator of what says that there is an object, or that there is none.
fn joining(there: bool) -> LogicalOperator
    ensures { result ≡ joining_of (not there) }
{
    if there {
        LogicalOperator::And
    } else {
        LogicalOperator::Or
    }
}

// Whether it says that there is an object, or that there is none.
fn says(node: &Node) -> Option<bool>
    ensures kind { result ≡ says_in (its_operator node.now) }
    ensures parts { IfSome result (λ there. count (children node.now) ≡ 2) }
{
    match logical_operator(node) {
        Some(LogicalOperator::And) => Some(true),
        Some(LogicalOperator::Or) => Some(false),
        _ => None,
    }
}

// `==`, or `!=`
fn is_loose(equal: bool, node: &Node) -> bool
    ensures kind { result ≡ is_loose_in (operator_of node.now) equal }
    ensures parts { result ≡ true → count (children node.now) ≡ 2 }
{
    match binary_operator(node) {
        Some(BinaryOperator::Equality) => equal,
        Some(BinaryOperator::Inequality) => !equal,
        _ => false,
    }
}

// Whether the expression is `==` or `===`; `!=` or `!==` where they are to be unequal.
fn is_equal(equal: bool, node: &Node) -> bool
    ensures kind { result ≡ is_equal_in (operator_of node.now) equal }
    ensures parts { result ≡ true → count (children node.now) ≡ 2 }
{
    match binary_operator(node) {
        Some(BinaryOperator::Equality) => equal,
        Some(BinaryOperator::StrictEquality) => equal,
        Some(BinaryOperator::Inequality) => !equal,
        Some(BinaryOperator::StrictInequality) => !equal,
        _ => false,
    }
}

fn is_typeof(node: &Node) -> bool
    ensures kind { result ≡ is_typeof_in (unary_of node.now) }
    ensures parts { result ≡ true → count (children node.now) ≡ 1 }
{
    match unary_operator(node) {
        Some(UnaryOperator::Typeof) => true,
        _ => false,
    }
}

// `"object"`
fn says_object(node: &Node) -> bool
    ensures { result ≡ says_object_in (string_of node.now) }
{
    match string(node) {
        Some(text) => text.as_slice() == OBJECT.as_slice(),
        None => false,
    }
}

// `typeof a == "object"`, or `!=`
fn asks(there: bool, node: &Node) -> bool
    ensures kind { result ≡ it_asks there node.now }
    ensures parts { result ≡ true → count (children node.now) ≡ 2 }
    ensures asked { result ≡ true → count (children (part node.now 0)) ≡ 1 }
{
    is_loose(there, node) && is_typeof(node.child(0)) && says_object(node.child(1))
}

// A comparison with null.
fn compares(equal: bool, node: &Node) -> bool
    ensures kind { result ≡ it_compares equal node.now }
    ensures parts { result ≡ true → count (children node.now) ≡ 2 }
{
    is_equal(equal, node) && is_null(node.child(1))
}

// Whether both are of one name, which a scope declares.
fn are_both(there: bool, first: &Node, second: &Node) -> bool
    ensures { result ≡ are_they_both there first.now second.now }
{
    asks(there, first)
        && compares(!there, second)
        && is_same_name(first.child(0).child(0), second.child(0))
        && is_declared(second.child(0))
}

// What stands right before the second operand, behind an equal operator or alone.
fn last(operator: LogicalOperator, node: &Node) -> &Node
    ensures { result.now ≡ last_of operator node.now }
{
    if is_logical(node, operator) {
        node.child(1)
    } else {
        node
    }
}

// `!!x` or `!x` of a comparison of x
fn hold(alloc: Global, there: bool, comparison: Node) -> Result<Node, OutOfMemory>
    ensures { IfOk result (λ w. w ≡ held_of there comparison) }
{
    let negated = negation(alloc, one(comparison))?;
    if there {
        negation(alloc, negated)
    } else {
        Ok(negated)
    }
}

// `!!x` or `!x` of a comparison of x, behind an equal operator or alone.
fn hold_last(alloc: Global, there: bool, node: Node) -> Result<Node, OutOfMemory>
    ensures { IfOk result (λ w. w ≡ last_held_of there node) }
{
    if is_logical(&node, joining(there)) {
        let (before, comparison) = two(node);
        let made = hold(alloc, there, comparison)?;
        logical(alloc, joining(there), before, made)
    } else {
        hold(alloc, there, node)
    }
}

// Of a comparison that comes second.
fn second(alloc: Global, there: bool, node: Node) -> Result<Node, OutOfMemory>
    ensures { IfOk result (λ w. w ≡ second_held_of there node) }
{
    let (test, comparison) = two(node);
    let made = hold(alloc, there, comparison)?;
    logical(alloc, joining(there), test, made)
}

// Of a comparison that comes first.
fn first(alloc: Global, there: bool, node: Node) -> Result<Node, OutOfMemory>
    ensures { IfOk result (λ w. w ≡ first_held_of there node) }
{
    let (comparison, test) = two(node);
    let made = hold_last(alloc, there, comparison)?;
    logical(alloc, joining(there), made, test)
}

/// `typeof x == "object" && x !== null` becomes `typeof x == "object" && !!x`, and
/// `typeof x != "object" || x === null` becomes `typeof x != "object" || !x`, in any order, and
/// after an equal operator to the left. The answer says whether it did; the only error is that
/// memory runs out, and then the expression is fit only to be dropped.
pub fn minimize_object_test(alloc: Global, node: &mut Node) -> Result<bool, OutOfMemory>
    ensures tree { OnOk result (node.new ≡ unwrap_or (written node.old) node.old) }
    ensures said { IfOk result (λ changed. changed ≡ is_some (written node.old)) }
{
    let Some(there) = says(node) else {
        return Ok(false);
    };
    let made = if are_both(there, last(joining(there), node.child(0)), node.child(1)) {
        second(alloc, there, taken(alloc, node))?
    } else if are_both(there, node.child(1), last(joining(there), node.child(0))) {
        first(alloc, there, taken(alloc, node))?
    } else {
        return Ok(false);
    };
    *node = made;
    Ok(true)
}
