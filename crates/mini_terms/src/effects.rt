//! Whether an expression is effect-free, in code.

ghost use Rattle.std.specs.Prelude.{◌≡◌, ◌&&◌};
ghost use Rattle.mini_model.specs.Tree.{children};
ghost use Rattle.mini_terms.specs.Kind.{nth_kind, each_kind};
ghost use Rattle.mini_terms.specs.Effects as term;
ghost use Rattle.mini_terms.specs.Effects.{nth_true, all_true, each_ef, each_primitive, each_identifier, all_primitive, ef};

use crate::kinds::Kind;
use crate::known::{child_kind, is_nullish, is_primitive, kind_of};
use crate::names::is_read_without_effect;
use mini_model::{BinaryOperator, Shape, UnaryOperator};
use mini_node::{Node, Nodes};

fn is_identifier(node: &Node) -> bool
    ensures { result ≡ term.is_identifier node.now }
{
    matches!(node.shape(), Shape::Identifier)
}

// Whether the operand is an identifier.
#[tactic(auto, using(crate::proofs::Children::identifier_at, crate::proofs::Children::no_identifier))]
fn is_over_identifier(node: &Node) -> bool
    ensures { result ≡ nth_true (each_identifier (children node.now)) 0 }
{
    node.children().len() > 0 && is_identifier(node.child(0))
}

// Whether all of the expressions have a primitive Kind.
#[tactic(auto, using(crate::proofs::Children::primitive_stops, crate::proofs::Children::primitive_goes_on, crate::proofs::Children::primitive_ends))]
fn are_primitive(nodes: &Nodes) -> bool
    ensures { result ≡ all_primitive (each_kind nodes.now) }
{
    for at in 0..nodes.len() {
        if !is_primitive(kind_of(nodes.child(at))) {
            return false;
        }
    }
    true
}

// Whether the parts of a template have a primitive Kind.
#[tactic(auto, using(crate::proofs::Children::primitive_items_at, crate::proofs::Children::no_primitive_items))]
fn has_primitive_parts(node: &Node) -> bool
    ensures { result ≡ nth_true (each_primitive (children node.now)) 1 }
{
    node.children().len() > 1 && are_primitive(node.child(1).children())
}

// Whether an operator takes operands of these Kinds without an event.
fn takes(operator: BinaryOperator, left: Kind, right: Kind) -> bool
    ensures { result ≡ term.ef_operands operator left right }
{
    match operator {
        BinaryOperator::StrictEquality | BinaryOperator::StrictInequality => true,
        BinaryOperator::Equality | BinaryOperator::Inequality => {
            is_nullish(left) || is_nullish(right) || (is_primitive(left) && is_primitive(right))
        }
        BinaryOperator::In | BinaryOperator::Instanceof => false,
        _ => is_primitive(left) && is_primitive(right),
    }
}

// Whether the child at a place is effect-free.
#[cycle(effects)]
#[tactic(auto, using(crate::proofs::Children::effect_free_at, crate::proofs::Children::none_effect_free))]
fn is_child_effect_free(node: &Node, at: usize, asked: bool) -> bool
    ensures { result ≡ nth_true (each_ef asked (children node.now)) at }
{
    at < node.children().len() && is_effect_free(node.child(at), asked)
}

// Whether all of the expressions are effect-free.
#[cycle(effects)]
#[tactic(auto, using(crate::proofs::Children::effect_free_stops, crate::proofs::Children::effect_free_goes_on, crate::proofs::Children::effect_free_ends))]
fn are_effect_free(nodes: &Nodes, asked: bool) -> bool
    ensures { result ≡ all_true (each_ef asked nodes.now) }
{
    for at in 0..nodes.len() {
        if !is_effect_free(nodes.child(at), asked) {
            return false;
        }
    }
    true
}

#[cycle(effects)]
fn is_unary_effect_free(node: &Node, operator: UnaryOperator, asked: bool) -> bool
    ensures { result ≡ term.ef_unary operator (nth_kind (each_kind (children node.now)) 0) (nth_true (each_identifier (children node.now)) 0) (nth_true (each_ef asked (children node.now)) 0) }
{
    match operator {
        UnaryOperator::LogicalNot | UnaryOperator::Void => is_child_effect_free(node, 0, asked),
        UnaryOperator::Typeof => is_over_identifier(node) || is_child_effect_free(node, 0, asked),
        UnaryOperator::Delete => false,
        UnaryOperator::UnaryPlus | UnaryOperator::UnaryNegation | UnaryOperator::BitwiseNot => {
            is_child_effect_free(node, 0, asked) && is_primitive(child_kind(node, 0))
        }
    }
}

// The operands first, whose Kinds are looked for only where they are effect-free.
#[cycle(effects)]
#[tactic(auto, using(crate::proofs::Children::operands_first))]
fn is_binary_effect_free(node: &Node, operator: BinaryOperator, asked: bool) -> bool
    ensures { result ≡ (term.ef_operands operator (nth_kind (each_kind (children node.now)) 0) (nth_kind (each_kind (children node.now)) 1) && (nth_true (each_ef asked (children node.now)) 0 && nth_true (each_ef asked (children node.now)) 1)) }
{
    is_child_effect_free(node, 0, asked)
        && is_child_effect_free(node, 1, asked)
        && takes(operator, child_kind(node, 0), child_kind(node, 1))
}

/// Whether the evaluation of an expression has no effect. `asked` says that `this` is asked of the
/// world, as in a constructor of a class with `extends`.
#[cycle(effects)]
#[tactic(auto, using(crate::proofs::Children::ef_is, crate::proofs::Children::below))]
pub fn is_effect_free(node: &Node, asked: bool) -> bool
    ensures { result ≡ ef asked node.now }
{
    match node.shape() {
        Shape::NumericLiteral(_)
        | Shape::StringLiteral(_)
        | Shape::BooleanLiteral(_)
        | Shape::NullLiteral
        | Shape::BigIntLiteral(_) => true,
        Shape::Listed => are_effect_free(node.children(), asked),
        Shape::Identifier => is_read_without_effect(node.name()),
        Shape::ThisExpression => !asked,
        Shape::UnaryExpression(operator) => is_unary_effect_free(node, *operator, asked),
        Shape::BinaryExpression(operator) => is_binary_effect_free(node, *operator, asked),
        Shape::LogicalExpression(_) => {
            is_child_effect_free(node, 0, asked) && is_child_effect_free(node, 1, asked)
        }
        Shape::ConditionalExpression => {
            is_child_effect_free(node, 0, asked)
                && is_child_effect_free(node, 1, asked)
                && is_child_effect_free(node, 2, asked)
        }
        Shape::SequenceExpression => is_child_effect_free(node, 0, asked),
        Shape::TemplateLiteral => {
            is_child_effect_free(node, 1, asked) && has_primitive_parts(node)
        }
        _ => false,
    }
}
