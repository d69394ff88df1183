//! Tests of expressions that several rewrites ask.

ghost use Rattle.std.specs.Prelude.{◌≡◌, true};
ghost use Rattle.mini_model.specs.Tree.{children, count};
ghost use Rattle.mini_node.specs.Children.{names, part};
ghost use Rattle.mini_syntax.specs.Forms.{is_zero as is_it_zero, is_void_zero as is_it_void_zero, is_undefined_name as is_it_undefined_name, is_global_undefined as is_it_global_undefined, is_undefined as is_it_undefined, is_literal as is_it_literal, is_cooked as is_it_cooked, is_list_of as is_it_list_of, is_text_template as is_it_text_template, is_plain as is_it_plain, is_unnamed as is_it_unnamed, is_inner as is_it_inner};

use mini_model::{Name, Shape, UnaryOperator};
use mini_node::{Node, is_identifier, number, unary_operator};

/// The units of `undefined`.
pub const UNDEFINED: [u16; 9] = [117, 110, 100, 101, 102, 105, 110, 101, 100];

// `0`
fn is_zero(node: &Node) -> bool
    ensures { result ≡ is_it_zero node.now }
{
    match number(node) {
        Some(value) => value == 0,
        None => false,
    }
}

/// `void 0`
pub fn is_void_zero(node: &Node) -> bool
    ensures { result ≡ is_it_void_zero node.now }
{
    match unary_operator(node) {
        Some(UnaryOperator::Void) => is_zero(node.child(0)),
        _ => false,
    }
}

// The name `undefined`, which no scope declares.
fn is_undefined_name(name: &Option<Name>) -> bool
    ensures { result ≡ is_it_undefined_name (names name.now) }
{
    match name {
        Some(name) => { name.symbol.is_none() && name.spelling.as_slice() == UNDEFINED.as_slice() }
        None => false,
    }
}

fn is_global_undefined(node: &Node) -> bool
    ensures { result ≡ is_it_global_undefined node.now }
{
    is_identifier(node) && is_undefined_name(node.name())
}

/// `undefined` or `void 0`
pub fn is_undefined(node: &Node) -> bool
    ensures { result ≡ is_it_undefined node.now }
{
    is_void_zero(node) || is_global_undefined(node)
}

// A literal other than a regular expression.
fn is_literal(node: &Node) -> bool
    ensures { result ≡ is_it_literal node.now }
{
    match node.shape() {
        Shape::NumericLiteral(_)
        | Shape::StringLiteral(_)
        | Shape::BooleanLiteral(_)
        | Shape::NullLiteral
        | Shape::BigIntLiteral(_) => node.is_bare(0),
        _ => false,
    }
}

// A piece of a template that is well formed.
fn is_cooked(node: &Node) -> bool
    ensures { result ≡ is_it_cooked node.now }
{
    match node.shape() {
        Shape::TemplateElement(_, _, Some(_)) => node.is_bare(0),
        _ => false,
    }
}

/// Whether it is a list of so many items.
pub fn is_list_of(size: usize, node: &Node) -> bool
    ensures kind { result ≡ is_it_list_of size node.now }
    ensures parts { result ≡ true → count (children node.now) ≡ size }
{
    match node.shape() {
        Shape::Listed => node.is_bare(size),
        _ => false,
    }
}

/// A template without expressions.
pub fn is_text_template(node: &Node) -> bool
    ensures kind { result ≡ is_it_text_template node.now }
    ensures parts { result ≡ true → count (children node.now) ≡ 2 }
    ensures piece { result ≡ true → count (children (part node.now 0)) ≡ 1 }
{
    match node.shape() {
        Shape::TemplateLiteral => {
            node.is_bare(2)
                && is_list_of(1, node.child(0))
                && is_list_of(0, node.child(1))
                && is_cooked(node.child(0).child(0))
        }
        _ => false,
    }
}

/// A value that is written out: a literal other than a regular expression, a template without
/// expressions, `void 0`.
pub fn is_plain(node: &Node) -> bool
    ensures { result ≡ is_it_plain node.now }
{
    is_literal(node) || is_text_template(node) || is_void_zero(node)
}

fn is_unnamed(name: &Option<Name>) -> bool
    ensures { result ≡ is_it_unnamed (names name.now) }
{
    match name {
        Some(_) => false,
        None => true,
    }
}

/// An inner expression.
pub fn is_inner(key: &Node) -> bool
    ensures kind { result ≡ is_it_inner key.now }
    ensures parts { result ≡ true → count (children key.now) ≡ 1 }
{
    match key.shape() {
        Shape::InnerExpression => is_unnamed(key.name()) && key.children().len() == 1,
        _ => false,
    }
}
