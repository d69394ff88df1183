//! Row 58: `undefined` or `void 0` in `==` and `!=` becomes `null`, which is lighter in every seat.

ghost use Rattle.std.specs.Prelude.{◌≡◌, is_some, unwrap_or, OnOk, IfOk, IfSome};
ghost use Rattle.mini_model.specs.Tree.{children, count, null_literal as the_null};
ghost use Rattle.mini_node.specs.Children.{part};
ghost use Rattle.mini_node.specs.Kinds.{binary as binary_of};
ghost use Rattle.mini_syntax.specs.SubstituteLooseEqualsUndefined.{is_loose as is_it_loose, loose_operator as its_loose_operator, written};

use crate::forms::is_undefined;
use mini_model::{BinaryOperator, OutOfMemory};
use mini_node::{Node, binary, binary_operator, discard, null_literal, one, taken, two};
use std::alloc::Global;

// `==` or `!=`
fn is_loose(operator: BinaryOperator) -> bool
    ensures { result ≡ is_it_loose operator }
{
    match operator {
        BinaryOperator::Equality | BinaryOperator::Inequality => true,
        _ => false,
    }
}

// The operator, where it is one of these.
fn loose_operator(node: &Node) -> Option<BinaryOperator>
    ensures kind { result ≡ its_loose_operator node.now }
    ensures parts { IfSome result (λ _. count (children node.now) ≡ 2) }
{
    match binary_operator(node) {
        Some(operator) if is_loose(operator) => Some(operator),
        _ => None,
    }
}

// `null == b`
fn with_null_left(alloc: Global, operator: BinaryOperator, node: Node) -> Result<Node, OutOfMemory>
    ensures { IfOk result (λ w. w ≡ binary_of operator the_null (part node 1)) }
{
    let (undefined, right) = two(node);
    discard(undefined);
    binary(alloc, operator, null_literal(alloc), right)
}

// `a == null`
fn with_null_right(alloc: Global, operator: BinaryOperator, node: Node) -> Result<Node, OutOfMemory>
    ensures { IfOk result (λ w. w ≡ binary_of operator (part node 0) the_null) }
{
    binary(alloc, operator, one(node), null_literal(alloc))
}

/// `undefined` or `void 0` in `==` and `!=` becomes `null`. The answer says whether it did; the
/// only error is that memory runs out, and then the expression is fit only to be dropped.
pub fn substitute_loose_equals_undefined(
    alloc: Global,
    node: &mut Node,
) -> Result<bool, OutOfMemory>
    ensures tree { OnOk result (node.new ≡ unwrap_or (written node.old) node.old) }
    ensures said { IfOk result (λ changed. changed ≡ is_some (written node.old)) }
{
    let Some(operator) = loose_operator(node) else {
        return Ok(false);
    };
    if is_undefined(node.child(0)) {
        *node = with_null_left(alloc, operator, taken(alloc, node))?;
        return Ok(true);
    }
    if is_undefined(node.child(1)) {
        *node = with_null_right(alloc, operator, taken(alloc, node))?;
        return Ok(true);
    }
    Ok(false)
}
