//! The rows on how an expression, or an argument that is undefined, is spelled: 34, 54, 55, 58, 60
//! and 65. Each function makes what one form of a row writes for a node, if it fits. The only error
//! is that memory runs out.

ghost use Rattle.std.specs.Prelude.{◌≡◌, ◌&&◌, ◌||◌, nat_eq, true, codes, IfOk};
ghost use Rattle.mini_model.specs.Position.{is_equality as is_it_equality};
ghost use Rattle.mini_model.specs.Tree.{children, count, shape_of};
ghost use Rattle.mini_node.specs.Children.{is_bare, names, part};
ghost use Rattle.mini_node.specs.Kinds as kind;
ghost use Rattle.mini_terms.specs.Plain.{void_zero as void_zero_tree};
ghost use Rattle.mini_log.specs.Terms as term;
ghost use Rattle.mini_log.specs.SpellingRows as row;

use crate::copying::copy_node;
use crate::making::binary_of;
use mini_held::is_equality;
use mini_model::{BinaryOperator, Name, OutOfMemory, Shape, UnaryOperator};
use mini_node::{
    Node, absent, binary, binary_operator, boolean, is_identifier, is_return_statement, negation,
    null_literal, number, numeric_literal, of_one, return_statement, string, string_literal, unary,
    unary_operator,
};
use mini_terms::{copied, has_no_effect, is_typed_by_value, leaves_nothing};
use std::alloc::Global;

const UNDEFINED: [u16; 9] = [117, 110, 100, 101, 102, 105, 110, 101, 100];

const LETTER_U: [u16; 1] = [117];

// ---- undefined

fn is_void(node: &Node) -> bool
    ensures kind { result ≡ term.is_void (kind.unary_operator node.now) }
    ensures parts { result ≡ true → count (children node.now) ≡ 1 }
{
    match unary_operator(node) {
        Some(UnaryOperator::Void) => true,
        _ => false,
    }
}

fn is_typeof(node: &Node) -> bool
    ensures kind { result ≡ term.is_typeof (kind.unary_operator node.now) }
    ensures parts { result ≡ true → count (children node.now) ≡ 1 }
{
    match unary_operator(node) {
        Some(UnaryOperator::Typeof) => true,
        _ => false,
    }
}

fn is_zero(node: &Node) -> bool
    ensures { result ≡ term.is_zero_value (kind.number node.now) }
{
    match number(node) {
        Some(value) => value == 0,
        None => false,
    }
}

fn is_void_zero(node: &Node) -> bool
    ensures { result ≡ term.is_void_zero node.now }
{
    is_void(node) && is_zero(node.child(0))
}

fn is_free_name(name: &Option<Name>) -> bool
    ensures { result ≡ term.is_free_name (names name.now) }
{
    match name {
        Some(name) => name.symbol.is_none(),
        None => false,
    }
}

fn is_named_undefined(name: &Option<Name>) -> bool
    ensures { result ≡ term.is_spelled (codes "undefined") (names name.now) }
{
    match name {
        Some(name) => name.spelling.as_slice() == UNDEFINED.as_slice(),
        None => false,
    }
}

fn is_unresolved(node: &Node) -> bool
    ensures { result ≡ term.is_unresolved node.now }
{
    is_identifier(node) && is_free_name(node.name())
}

/// Whether it is the name `undefined`, which no scope declares, or `void 0`.
pub fn is_undefined(node: &Node) -> bool
    ensures { result ≡ term.is_undefined node.now }
{
    (is_unresolved(node) && is_named_undefined(node.name())) || is_void_zero(node)
}

// ---- 54

fn is_literal(node: &Node) -> bool
    ensures { result ≡ term.is_literal node.now }
{
    match node.shape() {
        Shape::NumericLiteral(_)
        | Shape::StringLiteral(_)
        | Shape::BooleanLiteral(_)
        | Shape::NullLiteral
        | Shape::BigIntLiteral(_) => node.is_bare(0),
        _ => false,
    }
}

fn is_cooked(node: &Node) -> bool
    ensures { result ≡ term.is_cooked node.now }
{
    match node.shape() {
        Shape::TemplateElement(_, _, Some(_)) => node.is_bare(0),
        _ => false,
    }
}

fn is_list_of(number: usize, node: &Node) -> bool
    ensures kind { result ≡ term.is_list_of number node.now }
    ensures parts { result ≡ true → count (children node.now) ≡ number }
{
    matches!(node.shape(), Shape::Listed) && node.is_bare(number)
}

// A template, whose children are two.
fn is_template(node: &Node) -> bool
    ensures kind { result ≡ (term.is_template_shape (shape_of node.now) && is_bare node.now 2) }
    ensures parts { result ≡ true → count (children node.now) ≡ 2 }
{
    matches!(node.shape(), Shape::TemplateLiteral) && node.is_bare(2)
}

// A list of one piece of a template.
fn is_one_piece(node: &Node) -> bool
    ensures parts { result ≡ true → count (children node.now) ≡ 1 }
    ensures kind { result ≡ (term.is_list_of 1 node.now && term.is_cooked (part node.now 0)) }
{
    is_list_of(1, node) && is_cooked(node.child(0))
}

/// Whether the node is a template without expressions.
pub fn is_text_template(node: &Node) -> bool
    ensures kind { result ≡ term.is_text_template node.now }
    ensures parts { result ≡ true → count (children node.now) ≡ 2 }
    ensures inner { result ≡ true → count (children (part node.now 0)) ≡ 1 }
{
    is_template(node) && is_one_piece(node.child(0)) && is_list_of(0, node.child(1))
}

fn is_plain(node: &Node) -> bool
    ensures { result ≡ term.is_plain node.now }
{
    is_literal(node) || is_text_template(node) || is_void_zero(node)
}

fn is_zero_number(node: &Node) -> bool
    ensures { result ≡ term.is_zero_shape (shape_of node.now) }
{
    matches!(node.shape(), Shape::NumericLiteral(0))
}

#[tactic(auto, using(crate::proofs::Missing::no_zero))]
fn is_first_zero(node: &Node) -> bool
    ensures { result ≡ term.is_zero_shape (shape_of (part node.now 0)) }
{
    if node.children().len() > 0 {
        is_zero_number(node.child(0))
    } else {
        false
    }
}

fn item_count(node: &Node) -> usize
    ensures { result ≡ term.items_by (shape_of node.now) (children node.now) }
{
    match node.shape() {
        Shape::Listed => node.children().len(),
        _ => 0,
    }
}

fn has_no_items(node: &Node) -> bool
    ensures { result ≡ nat_eq (term.items_by (shape_of node.now) (children node.now)) 0 }
{
    item_count(node) == 0
}

#[tactic(auto, using(crate::proofs::Missing::no_items))]
fn has_no_second_items(node: &Node) -> bool
    ensures { result ≡ nat_eq (term.items_by (shape_of (part node.now 1)) (children (part node.now 1))) 0 }
{
    if node.children().len() > 1 {
        has_no_items(node.child(1))
    } else {
        true
    }
}

fn is_awkward(node: &Node) -> bool
    ensures { result ≡ term.is_awkward_by (shape_of node.now) node.now }
{
    match node.shape() {
        Shape::NumericLiteral(_)
        | Shape::StringLiteral(_)
        | Shape::BooleanLiteral(_)
        | Shape::NullLiteral
        | Shape::BigIntLiteral(_)
        | Shape::SequenceExpression
        | Shape::InnerExpression => true,
        Shape::TemplateLiteral => has_no_second_items(node),
        Shape::UnaryExpression(UnaryOperator::Void) => is_first_zero(node),
        _ => false,
    }
}

fn turns(node: &Node, operator: BinaryOperator) -> bool
    requires { count (children node.now) ≡ 2 }
    ensures { result ≡ (is_it_equality operator && (term.is_plain (part node.now 0) && term.is_ready (part node.now 1))) }
{
    is_equality(operator) && is_plain(node.child(0)) && !is_awkward(node.child(1))
}

fn turned_by(
    alloc: Global,
    node: &Node,
    operator: BinaryOperator,
) -> Result<Option<Node>, OutOfMemory>
    requires { count (children node.now) ≡ 2 }
    ensures { IfOk result (λ w. w ≡ row.turned_by node.now operator) }
{
    if turns(node, operator) {
        let made = binary_of(alloc, operator, node.child(1), node.child(0))?;
        Ok(Some(made))
    } else {
        Ok(None)
    }
}

/// 54: an equality swaps, whose left side is plain and whose right one isn't.
pub fn turned(alloc: Global, node: &Node) -> Result<Option<Node>, OutOfMemory>
    ensures { IfOk result (λ w. w ≡ row.turned node.now) }
{
    match binary_operator(node) {
        Some(operator) => turned_by(alloc, node, operator),
        None => Ok(None),
    }
}

// ---- 55

fn is_text_undefined(node: &Node) -> bool
    ensures { result ≡ term.is_text (codes "undefined") (kind.string node.now) }
{
    match string(node) {
        Some(text) => text.as_slice() == UNDEFINED.as_slice(),
        None => false,
    }
}

fn asks_undefined(node: &Node, operator: BinaryOperator) -> bool
    requires { count (children node.now) ≡ 2 }
    ensures kind { result ≡ row.asks_undefined node.now operator }
    ensures parts { result ≡ true → count (children (part node.now 0)) ≡ 1 }
{
    is_equality(operator) && (is_typeof(node.child(0)) && is_text_undefined(node.child(1)))
}

fn order_for(operator: BinaryOperator) -> BinaryOperator
    ensures { result ≡ row.order_for operator }
{
    match operator {
        BinaryOperator::Equality | BinaryOperator::StrictEquality => BinaryOperator::GreaterThan,
        _ => BinaryOperator::LessThan,
    }
}

fn strict_for(operator: BinaryOperator) -> BinaryOperator
    ensures { result ≡ row.strict_for operator }
{
    match operator {
        BinaryOperator::Equality | BinaryOperator::StrictEquality => BinaryOperator::StrictEquality,
        _ => BinaryOperator::StrictInequality,
    }
}

// `"u"`
fn letter(alloc: Global) -> Result<Node, OutOfMemory>
    ensures { IfOk result (λ made. made ≡ kind.string_literal (codes "u")) }
{
    let text = copied(alloc, LETTER_U.as_slice())?;
    Ok(string_literal(alloc, text))
}

// `void 0`
fn void_zero(alloc: Global) -> Result<Node, OutOfMemory>
    ensures { IfOk result (λ made. made ≡ void_zero_tree) }
{
    unary(alloc, UnaryOperator::Void, numeric_literal(alloc, 0))
}

fn ordered_by(
    alloc: Global,
    node: &Node,
    operator: BinaryOperator,
) -> Result<Option<Node>, OutOfMemory>
    requires { count (children node.now) ≡ 2 }
    ensures { IfOk result (λ w. w ≡ row.ordered_by node.now operator) }
{
    if asks_undefined(node, operator) && is_unresolved(node.child(0).child(0)) {
        let left = copy_node(alloc, node.child(0))?;
        let right = letter(alloc)?;
        Ok(Some(binary(alloc, order_for(operator), left, right)?))
    } else {
        Ok(None)
    }
}

/// 55: `typeof x == "undefined"` becomes `typeof x > "u"`, of an unresolved x.
pub fn ordered(alloc: Global, node: &Node) -> Result<Option<Node>, OutOfMemory>
    ensures { IfOk result (λ w. w ≡ row.ordered node.now) }
{
    match binary_operator(node) {
        Some(operator) => ordered_by(alloc, node, operator),
        None => Ok(None),
    }
}

fn compared_by(
    alloc: Global,
    node: &Node,
    operator: BinaryOperator,
) -> Result<Option<Node>, OutOfMemory>
    requires { count (children node.now) ≡ 2 }
    ensures { IfOk result (λ w. w ≡ row.compared_by node.now operator) }
{
    if asks_undefined(node, operator) && is_typed_by_value(node.child(0).child(0)) {
        let left = copy_node(alloc, node.child(0).child(0))?;
        let right = void_zero(alloc)?;
        Ok(Some(binary(alloc, strict_for(operator), left, right)?))
    } else {
        Ok(None)
    }
}

/// 55: of another operand e it becomes `e === void 0`.
pub fn compared(alloc: Global, node: &Node) -> Result<Option<Node>, OutOfMemory>
    ensures { IfOk result (λ w. w ≡ row.compared node.now) }
{
    match binary_operator(node) {
        Some(operator) => compared_by(alloc, node, operator),
        None => Ok(None),
    }
}

// ---- 58

fn is_loose(operator: BinaryOperator) -> bool
    ensures { result ≡ row.is_loose operator }
{
    matches!(
        operator,
        BinaryOperator::Equality | BinaryOperator::Inequality
    )
}

fn null_left_by(
    alloc: Global,
    node: &Node,
    operator: BinaryOperator,
) -> Result<Option<Node>, OutOfMemory>
    requires { count (children node.now) ≡ 2 }
    ensures { IfOk result (λ w. w ≡ row.null_left_by node.now operator) }
{
    if is_loose(operator) && is_undefined(node.child(0)) {
        let right = copy_node(alloc, node.child(1))?;
        Ok(Some(binary(alloc, operator, null_literal(alloc), right)?))
    } else {
        Ok(None)
    }
}

/// 58: `undefined == b` becomes `null == b`.
pub fn null_left(alloc: Global, node: &Node) -> Result<Option<Node>, OutOfMemory>
    ensures { IfOk result (λ w. w ≡ row.null_left node.now) }
{
    match binary_operator(node) {
        Some(operator) => null_left_by(alloc, node, operator),
        None => Ok(None),
    }
}

fn null_right_by(
    alloc: Global,
    node: &Node,
    operator: BinaryOperator,
) -> Result<Option<Node>, OutOfMemory>
    requires { count (children node.now) ≡ 2 }
    ensures { IfOk result (λ w. w ≡ row.null_right_by node.now operator) }
{
    if is_loose(operator) && is_undefined(node.child(1)) {
        let left = copy_node(alloc, node.child(0))?;
        Ok(Some(binary(alloc, operator, left, null_literal(alloc))?))
    } else {
        Ok(None)
    }
}

/// 58: `a == undefined` becomes `a == null`.
pub fn null_right(alloc: Global, node: &Node) -> Result<Option<Node>, OutOfMemory>
    ensures { IfOk result (λ w. w ≡ row.null_right node.now) }
{
    match binary_operator(node) {
        Some(operator) => null_right_by(alloc, node, operator),
        None => Ok(None),
    }
}

// ---- 60, 65

fn is_idle_void(node: &Node) -> bool
    ensures { result ≡ row.is_idle_void node.now }
{
    is_void(node) && (has_no_effect(node.child(0)) && leaves_nothing(node.child(0)))
}

fn returns_undefined(node: &Node) -> bool
    ensures { result ≡ (kind.is_return_statement node.now && (term.is_undefined (part node.now 0) || row.is_idle_void (part node.now 0))) }
{
    is_return_statement(node) && (is_undefined(node.child(0)) || is_idle_void(node.child(0)))
}

/// 60: `return undefined;` and `return void e;` become `return;`.
pub fn bare_return(alloc: Global, node: &Node) -> Result<Option<Node>, OutOfMemory>
    ensures { IfOk result (λ w. w ≡ row.bare_return node.now) }
{
    if returns_undefined(node) {
        Ok(Some(return_statement(alloc, absent(alloc))?))
    } else {
        Ok(None)
    }
}

fn yields_undefined(node: &Node) -> bool
    ensures { result ≡ (row.is_yield_shape (shape_of node.now) && (is_bare node.now 1 && term.is_void_zero (part node.now 0))) }
{
    matches!(node.shape(), Shape::YieldExpression(false))
        && (node.is_bare(1) && is_void_zero(node.child(0)))
}

/// 60: `yield void 0` becomes `yield`.
pub fn bare_yield(alloc: Global, node: &Node) -> Result<Option<Node>, OutOfMemory>
    ensures { IfOk result (λ w. w ≡ row.bare_yield node.now) }
{
    if yields_undefined(node) {
        let nothing = of_one(alloc, absent(alloc))?;
        Ok(Some(Node::new(Shape::YieldExpression(false), nothing)))
    } else {
        Ok(None)
    }
}

fn digit(alloc: Global, is_true: bool) -> Result<Node, OutOfMemory>
    ensures { IfOk result (λ made. made ≡ row.digit is_true) }
{
    let digit = if is_true { 0 } else { 1 };
    negation(alloc, numeric_literal(alloc, digit))
}

/// 65: `true` becomes `!0`, and `false` `!1`.
pub fn spelled(alloc: Global, node: &Node) -> Result<Option<Node>, OutOfMemory>
    ensures { IfOk result (λ w. w ≡ row.spelled node.now) }
{
    match boolean(node) {
        Some(value) => Ok(Some(digit(alloc, value)?)),
        None => Ok(None),
    }
}
