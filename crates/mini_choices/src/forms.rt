//! Tests of what stands for undefined and null.

ghost use Rattle.std.specs.Prelude.{◌≡◌};
ghost use Rattle.mini_node.specs.Children.{names};
ghost use Rattle.mini_choices.specs.Forms.{is_zero as is_it_zero, is_void_zero as is_it_void_zero, is_undefined_name as is_it_undefined_name, is_global_undefined as is_it_global_undefined, is_undefined as is_it_undefined, are_nullish as are_they_nullish};

use mini_model::{Name, UnaryOperator};
use mini_node::{Node, is_identifier, is_null, number, unary_operator};

// The units of `undefined`.
const UNDEFINED: [u16; 9] = [117, 110, 100, 101, 102, 105, 110, 101, 100];

// `0`
fn is_zero(node: &Node) -> bool
    ensures { result ≡ is_it_zero node.now }
{
    match number(node) {
        Some(value) => value == 0,
        None => false,
    }
}

/// Whether the expression is `void 0`.
pub fn is_void_zero(node: &Node) -> bool
    ensures { result ≡ is_it_void_zero node.now }
{
    match unary_operator(node) {
        Some(UnaryOperator::Void) => is_zero(node.child(0)),
        _ => false,
    }
}

// The name `undefined`, which no scope declares.
fn is_undefined_name(name: &Option<Name>) -> bool
    ensures { result ≡ is_it_undefined_name (names name.now) }
{
    match name {
        Some(name) => { name.symbol.is_none() && name.spelling.as_slice() == UNDEFINED.as_slice() }
        None => false,
    }
}

fn is_global_undefined(node: &Node) -> bool
    ensures { result ≡ is_it_global_undefined node.now }
{
    is_identifier(node) && is_undefined_name(node.name())
}

/// Whether the expression is `void 0`, or the name `undefined` that no scope declares.
pub fn is_undefined(node: &Node) -> bool
    ensures { result ≡ is_it_undefined node.now }
{
    is_void_zero(node) || is_global_undefined(node)
}

/// Whether the two are `null` and what stands for undefined, in one order or the other.
pub fn are_nullish(first: &Node, second: &Node) -> bool
    ensures { result ≡ are_they_nullish first.now second.now }
{
    is_null(first) && is_undefined(second) || is_undefined(first) && is_null(second)
}
