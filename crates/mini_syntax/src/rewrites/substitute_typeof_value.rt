//! Row 55 of what `typeof` reads by its value: `typeof a == "undefined"` becomes `a === void 0`,
//! and of an inequality `a !== void 0`. It is lighter in every seat.

ghost use Rattle.std.specs.Prelude.{◌≡◌, is_some, unwrap_or, OnOk, IfOk, IfSome};
ghost use Rattle.mini_model.specs.Tree.{children, count};
ghost use Rattle.mini_node.specs.Children.{part};
ghost use Rattle.mini_node.specs.Kinds.{binary as binary_of, string as text_of};
ghost use Rattle.mini_rows.specs.Spellings.{void_zero as undefined_value};
ghost use Rattle.mini_syntax.specs.SubstituteTypeofValue as row;
ghost use Rattle.mini_syntax.specs.SubstituteTypeofValue.{written};

use crate::forms::UNDEFINED;
use mini_model::{BinaryOperator, OutOfMemory, UnaryOperator};
use mini_node::{
    Node, binary, binary_operator, numeric_literal, one, string, taken, unary, unary_operator,
};
use mini_terms::is_typed_by_value;
use std::alloc::Global;

// `"undefined"`
pub fn is_undefined_text(node: &Node) -> bool
    ensures { result ≡ row.is_undefined_text (text_of node.now) }
{
    match string(node) {
        Some(text) => text.as_slice() == UNDEFINED.as_slice(),
        None => false,
    }
}

// `typeof a`, of what it reads by its value
fn is_typeof_value(node: &Node) -> bool
    ensures { result ≡ row.is_typeof_value node.now }
{
    match unary_operator(node) {
        Some(UnaryOperator::Typeof) => is_typed_by_value(node.child(0)),
        _ => false,
    }
}

// The operator that is written for one of the four equalities.
fn strict_of(operator: BinaryOperator) -> Option<BinaryOperator>
    ensures { result ≡ row.strict_of operator }
{
    match operator {
        BinaryOperator::Equality | BinaryOperator::StrictEquality => {
            Some(BinaryOperator::StrictEquality)
        }
        BinaryOperator::Inequality | BinaryOperator::StrictInequality => {
            Some(BinaryOperator::StrictInequality)
        }
        _ => None,
    }
}

// `typeof a == "undefined"`: the operator that is written
fn strict(node: &Node) -> Option<BinaryOperator>
    ensures kind { result ≡ row.strict node.now }
    ensures parts { IfSome result (λ _. count (children node.now) ≡ 2) }
{
    match binary_operator(node) {
        Some(operator) if is_typeof_value(node.child(0)) && is_undefined_text(node.child(1)) => {
            strict_of(operator)
        }
        _ => None,
    }
}

fn void_zero(alloc: Global) -> Result<Node, OutOfMemory>
    ensures { IfOk result (λ w. w ≡ undefined_value) }
{
    unary(alloc, UnaryOperator::Void, numeric_literal(alloc, 0))
}

// `a === void 0`
fn compared(alloc: Global, operator: BinaryOperator, node: Node) -> Result<Node, OutOfMemory>
    ensures { IfOk result (λ w. w ≡ binary_of operator (part (part node 0) 0) undefined_value) }
{
    binary(alloc, operator, one(one(node)), void_zero(alloc)?)
}

/// `typeof a == "undefined"` becomes `a === void 0`, of what `typeof` reads by its value and any of
/// the four equalities (ECMA-262, "The typeof Operator"). The answer says whether it did; the only
/// error is that memory runs out, and then the expression is fit only to be dropped.
pub fn substitute_typeof_value(alloc: Global, node: &mut Node) -> Result<bool, OutOfMemory>
    ensures tree { OnOk result (node.new ≡ unwrap_or (written node.old) node.old) }
    ensures said { IfOk result (λ changed. changed ≡ is_some (written node.old)) }
{
    match strict(node) {
        Some(operator) => {
            *node = compared(alloc, operator, taken(alloc, node))?;
            Ok(true)
        }
        None => Ok(false),
    }
}
