//! Row 55: `typeof x == "undefined"` becomes `typeof x > "u"`, of a name that no scope declares,
//! and of an inequality `typeof x < "u"`. It is lighter in every seat. What is no such name is
//! another row's.

ghost use Rattle.std.specs.Prelude.{◌≡◌, codes, is_some, unwrap_or, OnOk, IfOk, IfSome};
ghost use Rattle.mini_model.specs.Tree.{children, count};
ghost use Rattle.mini_node.specs.Children.{names, part};
ghost use Rattle.mini_node.specs.Kinds.{binary as binary_of};
ghost use Rattle.mini_rows.specs.Spellings.{text as literal};
ghost use Rattle.mini_syntax.specs.SubstituteTypeofUndefined as row;
ghost use Rattle.mini_syntax.specs.SubstituteTypeofUndefined.{written};

use crate::rewrites::substitute_typeof_value::{is_undefined_text, substitute_typeof_value};
use mini_model::{BinaryOperator, Name, OutOfMemory, Text, UnaryOperator};
use mini_node::{
    Node, binary, binary_operator, is_identifier, one, string_literal, taken, unary_operator,
};
use std::alloc::Global;

// The unit of `u`.
const LETTER_U: u16 = 117;

// A name that no scope declares.
fn is_unresolved_name(name: &Option<Name>) -> bool
    ensures { result ≡ row.is_unresolved_name (names name.now) }
{
    match name {
        Some(name) => name.symbol.is_none(),
        None => false,
    }
}

fn is_unresolved(node: &Node) -> bool
    ensures { result ≡ row.is_unresolved node.now }
{
    is_identifier(node) && is_unresolved_name(node.name())
}

// `typeof x`, of such a name
fn is_typeof_name(node: &Node) -> bool
    ensures { result ≡ row.is_typeof_name node.now }
{
    match unary_operator(node) {
        Some(UnaryOperator::Typeof) => is_unresolved(node.child(0)),
        _ => false,
    }
}

// The operator that is written for one of the four equalities.
fn order_of(operator: BinaryOperator) -> Option<BinaryOperator>
    ensures { result ≡ row.order_of operator }
{
    match operator {
        BinaryOperator::Equality | BinaryOperator::StrictEquality => {
            Some(BinaryOperator::GreaterThan)
        }
        BinaryOperator::Inequality | BinaryOperator::StrictInequality => {
            Some(BinaryOperator::LessThan)
        }
        _ => None,
    }
}

// `typeof x == "undefined"`: the operator that is written
fn order(node: &Node) -> Option<BinaryOperator>
    ensures kind { result ≡ row.order node.now }
    ensures parts { IfSome result (λ _. count (children node.now) ≡ 2) }
{
    match binary_operator(node) {
        Some(operator) if is_typeof_name(node.child(0)) && is_undefined_text(node.child(1)) => {
            order_of(operator)
        }
        _ => None,
    }
}

// `"u"`
fn letter(alloc: Global) -> Result<Node, OutOfMemory>
    ensures { IfOk result (λ w. w ≡ literal (codes "u")) }
{
    let mut text = Text::new(alloc);
    text.push(LETTER_U)?;
    Ok(string_literal(alloc, text))
}

// `typeof x > "u"`
fn compared(alloc: Global, operator: BinaryOperator, node: Node) -> Result<Node, OutOfMemory>
    ensures { IfOk result (λ w. w ≡ binary_of operator (part node 0) (literal (codes "u"))) }
{
    binary(alloc, operator, one(node), letter(alloc)?)
}

/// `typeof x == "undefined"` becomes `typeof x > "u"`, of a name that no scope declares and any of
/// the four equalities; of what `typeof` reads by its value it becomes `x === void 0`. The answer
/// says whether it did; the only error is that memory runs out, and then the expression is fit only
/// to be dropped.
pub fn substitute_typeof_undefined(alloc: Global, node: &mut Node) -> Result<bool, OutOfMemory>
    ensures tree { OnOk result (node.new ≡ unwrap_or (written node.old) node.old) }
    ensures said { IfOk result (λ changed. changed ≡ is_some (written node.old)) }
{
    match order(node) {
        Some(operator) => {
            *node = compared(alloc, operator, taken(alloc, node))?;
            Ok(true)
        }
        None => substitute_typeof_value(alloc, node),
    }
}
