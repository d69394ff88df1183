//! Questions about an expression that a term answers exactly, and what is written in the place of
//! what is read by its value.

ghost use Rattle.std.specs.Prelude.{◌≡◌, true, false, not, IfOk};
ghost use Rattle.mini_model.specs.Tree.{children, count, shape_of};
ghost use Rattle.mini_node.specs.Children.{names};
ghost use Rattle.mini_laws.specs.Expressions.{first_kind};
ghost use Rattle.mini_laws.specs.Naming.{kinds};
ghost use Rattle.mini_laws.specs.ScopeList.{is_eval as is_eval_of};
ghost use Rattle.mini_terms.specs.Effects.{ef};
ghost use Rattle.mini_terms.specs.Exact as term;
ghost use Rattle.mini_terms.specs.Kind.{is_number as is_number_of};
ghost use Rattle.mini_terms.specs.Plain as plain;

use crate::effects::is_effect_free;
use crate::kinds::Kind;
use crate::known::child_kind;
use crate::names::is_undefined_name;
use mini_model::{BinaryOperator, Guard, Name, OutOfMemory, Shape, UnaryOperator};
use mini_node::{Node, numeric_literal, of_two, sequence};
use std::alloc::Global;

// The units of `eval`.
const EVAL: [u16; 4] = [101, 118, 97, 108];

/// Whether the evaluation of an expression may have an effect: exactly where it isn't effect-free.
/// `asked` says that `this` is asked of the world, as in a constructor of a class with `extends`.
pub fn may_have_side_effects(node: &Node, asked: bool) -> bool
    ensures { result ≡ not (ef asked node.now) }
{
    !is_effect_free(node, asked)
}

/// Whether an expression whose value nobody asks for may go: exactly where it is effect-free.
pub fn remove_unused_expression(node: &Node, asked: bool) -> bool
    ensures { result ≡ ef asked node.now }
{
    is_effect_free(node, asked)
}

// ---- numbers of 32 bits

fn is_32(number: i64) -> bool
    ensures { result ≡ term.is_32 number }
{
    if number < 0 {
        -2_147_483_648 <= number
    } else {
        number <= 4_294_967_295
    }
}

fn makes_32(operator: BinaryOperator) -> bool
    ensures { result ≡ term.makes_32 operator }
{
    match operator {
        BinaryOperator::BitwiseAnd
        | BinaryOperator::BitwiseXor
        | BinaryOperator::BitwiseOr
        | BinaryOperator::ShiftLeft
        | BinaryOperator::ShiftRight
        | BinaryOperator::ShiftRightZeroFill => true,
        _ => false,
    }
}

fn is_number(kind: Kind) -> bool
    ensures { result ≡ is_number_of kind }
{
    matches!(kind, Kind::Number)
}

/// Whether each value of an expression is a whole number of 32 bits, with a sign or without, as far
/// as its text tells: of `~` and of an operator of bits or a shift with an operand that is a
/// number, and of a literal in that range.
#[tactic(auto, using(crate::proofs::ExactTable::int32_is))]
pub fn is_int32_or_uint32(node: &Node) -> bool
    ensures { result ≡ term.is_int32_or_uint32 node.now }
{
    match node.shape() {
        Shape::NumericLiteral(number) => is_32(*number),
        Shape::UnaryExpression(UnaryOperator::BitwiseNot) => is_number(child_kind(node, 0)),
        Shape::BinaryExpression(operator) => {
            makes_32(*operator)
                && (is_number(child_kind(node, 0)) || is_number(child_kind(node, 1)))
        }
        _ => false,
    }
}

// ---- what is written out

fn is_zero(node: &Node) -> bool
    ensures { result ≡ plain.is_zero node.now }
{
    match node.shape() {
        Shape::NumericLiteral(number) => *number == 0,
        _ => false,
    }
}

#[tactic(auto, using(crate::proofs::ExactTable::items_none, crate::proofs::ExactTable::items_some))]
fn has_no_items(node: &Node) -> bool
    ensures { result ≡ plain.has_no_items node.now }
{
    if node.children().len() == 0 {
        true
    } else {
        false
    }
}

// `void 0`, of its children.
#[tactic(auto, using(crate::proofs::ExactTable::void_is, crate::proofs::ExactTable::void_not))]
fn is_over_zero(node: &Node) -> bool
    ensures { result ≡ term.is_over_zero (children node.now) }
{
    node.children().len() == 1 && is_zero(node.child(0))
}

// A template without expressions, of its children.
#[tactic(auto, using(crate::proofs::ExactTable::text_is, crate::proofs::ExactTable::text_not))]
fn is_text_alone(node: &Node) -> bool
    ensures { result ≡ term.is_text_alone (children node.now) }
{
    node.children().len() == 2 && has_no_items(node.child(1))
}

/// Whether an expression is a value that is written out: a literal other than a regular expression,
/// a template without expressions, or `void 0`.
#[tactic(auto, using(crate::proofs::ExactTable::plain_is))]
pub fn is_literal_value(node: &Node) -> bool
    ensures { result ≡ plain.plain node.now }
{
    match node.shape() {
        Shape::NumericLiteral(_)
        | Shape::StringLiteral(_)
        | Shape::BooleanLiteral(_)
        | Shape::NullLiteral
        | Shape::BigIntLiteral(_) => true,
        Shape::UnaryExpression(UnaryOperator::Void) => is_over_zero(node),
        Shape::TemplateLiteral => is_text_alone(node),
        _ => false,
    }
}

/// Whether an expression is `void 0`, or the name `undefined` that no scope declares.
#[tactic(auto, using(crate::proofs::ExactTable::undefined_is))]
pub fn is_expression_undefined(node: &Node) -> bool
    ensures { result ≡ term.is_expression_undefined node.now }
{
    match node.shape() {
        Shape::UnaryExpression(UnaryOperator::Void) => is_over_zero(node),
        Shape::Identifier => is_undefined_name(node.name()),
        _ => false,
    }
}

// ---- references

fn is_access(shape: &Shape) -> bool
    ensures { result ≡ term.is_access shape.now }
{
    matches!(
        shape,
        Shape::StaticMemberExpression(_)
            | Shape::ComputedMemberExpression(_)
            | Shape::PrivateFieldExpression(_)
            | Shape::SuperStaticMemberExpression
            | Shape::SuperComputedMemberExpression
            | Shape::ChainExpression
    )
}

fn is_eval(name: &Option<Name>) -> bool
    ensures { result ≡ is_eval_of (names name.now) }
{
    match name {
        Some(name) => name.spelling.as_slice() == EVAL.as_slice(),
        None => false,
    }
}

fn is_unresolved(name: &Option<Name>) -> bool
    ensures { result ≡ term.is_unresolved (names name.now) }
{
    match name {
        Some(name) => !name.symbol.is_some(),
        None => false,
    }
}

fn is_name_by(holds: bool, shape: &Shape) -> bool
    ensures { result ≡ term.is_name_by holds shape.now }
{
    match shape {
        Shape::Identifier => holds,
        _ => false,
    }
}

/// Whether an expression would be read as a reference in the place of what is read by its value: as
/// a callee or a tag a member, a chain or the name `eval`, under `delete` a member, a chain or a
/// name, and under `typeof` a name that no scope declares.
#[tactic(auto, using(crate::proofs::ExactTable::guarded_is))]
pub fn is_guarded(node: &Node, guard: Guard) -> bool
    ensures { result ≡ term.is_guarded guard node.now }
{
    match guard {
        Guard::None => false,
        Guard::Callee => {
            is_access(node.shape()) || is_name_by(is_eval(node.name()), node.shape())
        }
        Guard::Delete => is_access(node.shape()) || is_name_by(true, node.shape()),
        Guard::Typeof => is_name_by(is_unresolved(node.name()), node.shape()),
    }
}

/// What is written for an expression in the place of what is no member, no chain and no such name,
/// so that it is read by its value: `0, o.f` as a callee, and `o.f` in a statement. The only error
/// is that memory runs out.
pub fn preserve_indirect_access_if_needed(
    alloc: Global,
    expression: Node,
    guard: Guard,
) -> Result<Node, OutOfMemory>
    ensures { IfOk result (λ w. w ≡ term.kept_by_value guard expression) }
{
    if is_guarded(&expression, guard) {
        let zero = numeric_literal(alloc, 0);
        sequence(alloc, of_two(alloc, zero, expression)?)
    } else {
        Ok(expression)
    }
}
