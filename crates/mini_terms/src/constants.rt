//! The constant of an expression and its truth by that, in code.

ghost use Rattle.std.specs.Prelude.{◌≡◌, true, Some, None, IfOk};
ghost use Rattle.mini_model.specs.Tree.{children, count, shape_of};
ghost use Rattle.mini_laws.specs.Value.{String};
ghost use Rattle.mini_terms.specs.Calculated as calculation;
ghost use Rattle.mini_terms.specs.Const.{binary_const, logical_const, conditional_const, nth_const, last_const, text_of as text_in};
ghost use Rattle.mini_terms.specs.Constant as term;
ghost use Rattle.mini_terms.specs.Constant.{constant, each_constant, each_constants};
ghost use Rattle.mini_terms.specs.Evident as list;
ghost use Rattle.mini_terms.specs.Templates as template;
ghost use Rattle.mini_terms.specs.Truth.{truth_by};
ghost use Rattle.mini_terms.specs.Values.{value_in};

use crate::evident::{are_lists, are_round, object_truth};
use crate::known::kind_of;
use crate::literals::{
    branch, calculated_binary, calculated_unary, copied, decided, is_true, undefined_if,
    with_piece, with_value,
};
use crate::names::is_undefined_name;
use crate::values::ConstantValue;
use mini_model::{BinaryOperator, LogicalOperator, OutOfMemory, Shape, Text, UnaryOperator};
use mini_node::{Node, Nodes};
use std::alloc::Global;

// The units of `length`.
const LENGTH: [u16; 6] = [108, 101, 110, 103, 116, 104];

// The greatest safe number (ECMA-262, Number.MAX_SAFE_INTEGER).
const MAX_SAFE: usize = 9_007_199_254_740_991;

// ---- operators

// `void` of anything is undefined.
fn unary_constant(
    alloc: Global,
    operator: UnaryOperator,
    operand: Option<ConstantValue>,
) -> Result<Option<ConstantValue>, OutOfMemory>
    ensures { IfOk result (λ v. value_in v ≡ calculation.unary_value true operator (value_in operand)) }
{
    match (operator, operand) {
        (UnaryOperator::Void, _) => Ok(Some(ConstantValue::Undefined)),
        (_, Some(value)) => calculated_unary(alloc, operator, &value),
        _ => Ok(None),
    }
}

fn binary_constant(
    alloc: Global,
    operator: BinaryOperator,
    left: Option<ConstantValue>,
    right: Option<ConstantValue>,
) -> Result<Option<ConstantValue>, OutOfMemory>
    ensures { IfOk result (λ v. value_in v ≡ binary_const operator (value_in left) (value_in right)) }
{
    match (left, right) {
        (Some(first), Some(second)) => calculated_binary(alloc, operator, first, second),
        _ => Ok(None),
    }
}

fn logical_constant(
    operator: LogicalOperator,
    left: Option<ConstantValue>,
    right: Option<ConstantValue>,
) -> Option<ConstantValue>
    ensures { value_in result ≡ logical_const operator (value_in left) (value_in right) }
{
    match (left, right) {
        (Some(first), Some(second)) => Some(decided(operator, first, second)),
        _ => None,
    }
}

fn conditional_constant(
    test: Option<ConstantValue>,
    consequent: Option<ConstantValue>,
    alternate: Option<ConstantValue>,
) -> Option<ConstantValue>
    ensures { value_in result ≡ conditional_const (value_in test) (value_in consequent) (value_in alternate) }
{
    match test {
        Some(value) => branch(is_true(&value), consequent, alternate),
        None => None,
    }
}

// Of a text at a key.
fn length_of(text: &Text, key: &Text) -> Option<ConstantValue>
    ensures { value_in result ≡ term.length_of text.now key.now }
{
    if key.as_slice() == LENGTH.as_slice() && text.len() <= MAX_SAFE {
        Some(ConstantValue::Number(text.len() as i64))
    } else {
        None
    }
}

fn member_constant(
    object: Option<ConstantValue>,
    key: Option<ConstantValue>,
) -> Option<ConstantValue>
    ensures { value_in result ≡ term.member_constant (value_in object) (value_in key) }
{
    match (object, key) {
        (Some(ConstantValue::String(text)), Some(ConstantValue::String(name))) => {
            length_of(&text, &name)
        }
        _ => None,
    }
}

// ---- templates

// What is known up to here, with one more piece, and the part behind it.
#[cycle(constants)]
fn with_part(
    alloc: Global,
    before: Option<Text>,
    piece: &Node,
    part: &Node,
) -> Result<Option<Text>, OutOfMemory>
    ensures { IfOk result (λ t. t ≡ template.joined_text (template.joined_text before (template.cooked_in (shape_of piece.now))) (text_in (constant part.now))) }
{
    match with_piece(before, piece)? {
        Some(text) => with_value(alloc, text, constant_value(alloc, part)?),
        None => Ok(None),
    }
}

// The text of pieces with the values of the parts between them.
#[cycle(constants)]
#[tactic(auto, using(crate::proofs::Joined::none_round, crate::proofs::Joined::first_part, crate::proofs::Joined::one_more, crate::proofs::Joined::last_piece))]
fn text_between(alloc: Global, pieces: &Nodes, parts: &Nodes) -> Result<Option<Text>, OutOfMemory>
    ensures { IfOk result (λ t. t ≡ template.text_between constant pieces.now parts.now) }
{
    if !are_round(pieces, parts) {
        return Ok(None);
    }
    let mut text = Some(Text::new(alloc));
    for at in 0..parts.len() {
        text = with_part(alloc, text, pieces.child(at), parts.child(at))?;
    }
    with_piece(text, pieces.child(parts.len()))
}

fn text_value(text: Option<Text>) -> Option<ConstantValue>
    ensures { value_in result ≡ template.text_value text }
{
    match text {
        Some(units) => Some(ConstantValue::String(units)),
        None => None,
    }
}

#[cycle(constants)]
#[tactic(auto, using(crate::proofs::ConstantTable::of_lists, crate::proofs::ConstantTable::no_lists))]
fn template_constant(alloc: Global, node: &Node) -> Result<Option<ConstantValue>, OutOfMemory>
    ensures { IfOk result (λ v. value_in v ≡ term.template_constant (children node.now) (each_constants (children node.now))) }
{
    if are_lists(node) {
        let text = text_between(alloc, node.child(0).children(), node.child(1).children())?;
        Ok(text_value(text))
    } else {
        Ok(None)
    }
}

// ---- all

// Of the child at a place.
#[cycle(constants)]
#[tactic(auto, using(crate::proofs::ConstantTable::constant_at, crate::proofs::ConstantTable::no_constant_at))]
fn child_constant(
    alloc: Global,
    node: &Node,
    at: usize,
) -> Result<Option<ConstantValue>, OutOfMemory>
    ensures { IfOk result (λ v. value_in v ≡ nth_const (each_constant (children node.now)) at) }
{
    if at < node.children().len() {
        constant_value(alloc, node.child(at))
    } else {
        Ok(None)
    }
}

// Of the last child.
#[cycle(constants)]
#[tactic(auto, using(crate::proofs::ConstantTable::last_constant_at, crate::proofs::ConstantTable::no_last_constant))]
fn last_constant(alloc: Global, node: &Node) -> Result<Option<ConstantValue>, OutOfMemory>
    ensures { IfOk result (λ v. value_in v ≡ last_const (each_constant (children node.now))) }
{
    let count = node.children().len();
    if count > 0 {
        constant_value(alloc, node.child(count - 1))
    } else {
        Ok(None)
    }
}

#[cycle(constants)]
fn operator_constant(
    alloc: Global,
    operator: BinaryOperator,
    node: &Node,
) -> Result<Option<ConstantValue>, OutOfMemory>
    ensures { IfOk result (λ v. value_in v ≡ binary_const operator (nth_const (each_constant (children node.now)) 0) (nth_const (each_constant (children node.now)) 1)) }
{
    let left = child_constant(alloc, node, 0)?;
    let right = child_constant(alloc, node, 1)?;
    binary_constant(alloc, operator, left, right)
}

#[cycle(constants)]
fn choice_constant(
    alloc: Global,
    operator: LogicalOperator,
    node: &Node,
) -> Result<Option<ConstantValue>, OutOfMemory>
    ensures { IfOk result (λ v. value_in v ≡ logical_const operator (nth_const (each_constant (children node.now)) 0) (nth_const (each_constant (children node.now)) 1)) }
{
    let left = child_constant(alloc, node, 0)?;
    let right = child_constant(alloc, node, 1)?;
    Ok(logical_constant(operator, left, right))
}

#[cycle(constants)]
fn branch_constant(alloc: Global, node: &Node) -> Result<Option<ConstantValue>, OutOfMemory>
    ensures { IfOk result (λ v. value_in v ≡ conditional_const (nth_const (each_constant (children node.now)) 0) (nth_const (each_constant (children node.now)) 1) (nth_const (each_constant (children node.now)) 2)) }
{
    let test = child_constant(alloc, node, 0)?;
    let consequent = child_constant(alloc, node, 1)?;
    let alternate = child_constant(alloc, node, 2)?;
    Ok(conditional_constant(test, consequent, alternate))
}

#[cycle(constants)]
fn key_constant(alloc: Global, node: &Node) -> Result<Option<ConstantValue>, OutOfMemory>
    ensures { IfOk result (λ v. value_in v ≡ term.member_constant (nth_const (each_constant (children node.now)) 0) (nth_const (each_constant (children node.now)) 1)) }
{
    let object = child_constant(alloc, node, 0)?;
    let key = child_constant(alloc, node, 1)?;
    Ok(member_constant(object, key))
}

fn text_constant(alloc: Global, text: &Text) -> Result<Option<ConstantValue>, OutOfMemory>
    ensures { IfOk result (λ v. value_in v ≡ Some (String text.now)) }
{
    Ok(Some(ConstantValue::String(copied(alloc, text.as_slice())?)))
}

/// The constant of an expression, whatever the expression does besides: `2` of `(f(), 1 + 1)`. None
/// exactly where nothing is known.
///
/// The only error is that memory runs out.
#[cycle(constants)]
#[tactic(auto, using(crate::proofs::ConstantTable::constant_is))]
pub fn constant_value(alloc: Global, node: &Node) -> Result<Option<ConstantValue>, OutOfMemory>
    ensures { IfOk result (λ v. value_in v ≡ constant node.now) }
{
    match node.shape() {
        Shape::Listed => last_constant(alloc, node),
        Shape::InnerExpression | Shape::SequenceExpression => child_constant(alloc, node, 0),
        Shape::Identifier => Ok(undefined_if(is_undefined_name(node.name()))),
        Shape::IdentifierName(text) | Shape::StringLiteral(text) => text_constant(alloc, text),
        Shape::NumericLiteral(number) => Ok(Some(ConstantValue::Number(*number))),
        Shape::BooleanLiteral(value) => Ok(Some(ConstantValue::Boolean(*value))),
        Shape::NullLiteral => Ok(Some(ConstantValue::Null)),
        Shape::UnaryExpression(operator) => {
            unary_constant(alloc, *operator, child_constant(alloc, node, 0)?)
        }
        Shape::BinaryExpression(operator) => operator_constant(alloc, *operator, node),
        Shape::LogicalExpression(operator) => choice_constant(alloc, *operator, node),
        Shape::ConditionalExpression => branch_constant(alloc, node),
        Shape::StaticMemberExpression(_) | Shape::ComputedMemberExpression(_) => {
            key_constant(alloc, node)
        }
        Shape::TemplateLiteral => template_constant(alloc, node),
        _ => Ok(None),
    }
}

/// Whether an expression counts as true, by its constant, or since it is an object: true of `"a"`
/// and of `[]`. None exactly where nothing is known.
///
/// The only error is that memory runs out.
pub fn to_boolean(alloc: Global, node: &Node) -> Result<Option<bool>, OutOfMemory>
    ensures { IfOk result (λ b. b ≡ term.constant_truth node.now) }
{
    match constant_value(alloc, node)? {
        Some(value) => Ok(Some(is_true(&value))),
        None => Ok(object_truth(kind_of(node))),
    }
}
