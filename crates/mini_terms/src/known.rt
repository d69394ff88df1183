//! The Kind of an expression, in code.

ghost use Rattle.std.specs.Prelude.{◌≡◌, true};
ghost use Rattle.mini_model.specs.declared.operator.BinaryOperator.TheVariants.{Addition};
ghost use Rattle.mini_model.specs.Tree.{children};
ghost use Rattle.mini_laws.specs.Value.{choose};
ghost use Rattle.mini_terms.specs.declared.kinds.Kind.TheVariants.{Undefined, Undetermined};
ghost use Rattle.mini_terms.specs.Kind as term;
ghost use Rattle.mini_terms.specs.Kind.{unary_kind as kind_by_unary, binary_kind as kind_by_binary, common as common_kind, number_if as number_where, nth_kind, last_kind as its_last_kind, each_kind, kind};

use crate::kinds::Kind;
use crate::names::is_undefined_name;
use mini_model::{AssignmentOperator, BinaryOperator, Shape, UnaryOperator};
use mini_node::Node;

/// Whether a value of this Kind is undefined, null, a Boolean, a Number or a String.
pub fn is_primitive(kind: Kind) -> bool
    ensures { result ≡ term.is_primitive kind }
{
    match kind {
        Kind::BigInt | Kind::Object | Kind::Undetermined => false,
        _ => true,
    }
}

/// Whether a value of this Kind is undefined or null.
pub fn is_nullish(kind: Kind) -> bool
    ensures { result ≡ term.is_nullish_kind kind }
{
    matches!(kind, Kind::Undefined | Kind::Null)
}

fn is_string(kind: Kind) -> bool
    ensures { result ≡ term.is_string kind }
{
    matches!(kind, Kind::String)
}

fn is_number(kind: Kind) -> bool
    ensures { result ≡ term.is_number kind }
{
    matches!(kind, Kind::Number)
}

// Whether `+` makes a number of a value of this Kind.
fn is_added(kind: Kind) -> bool
    ensures { result ≡ term.is_added kind }
{
    match kind {
        Kind::String => false,
        _ => is_primitive(kind),
    }
}

fn number_if(condition: bool) -> Kind
    ensures { result ≡ number_where condition }
{
    if condition {
        Kind::Number
    } else {
        Kind::Undetermined
    }
}

/// The Kind of two values, where both have one.
pub fn common(left: Kind, right: Kind) -> Kind
    ensures { result ≡ common_kind left right }
{
    match (left, right) {
        (Kind::Undefined, Kind::Undefined) => Kind::Undefined,
        (Kind::Null, Kind::Null) => Kind::Null,
        (Kind::Boolean, Kind::Boolean) => Kind::Boolean,
        (Kind::Number, Kind::Number) => Kind::Number,
        (Kind::BigInt, Kind::BigInt) => Kind::BigInt,
        (Kind::String, Kind::String) => Kind::String,
        (Kind::Object, Kind::Object) => Kind::Object,
        _ => Kind::Undetermined,
    }
}

// Nothing is known.
fn is_unknown(kind: Kind) -> bool
    ensures { result ≡ true → kind ≡ Undetermined }
{
    matches!(kind, Kind::Undetermined)
}

fn unary_kind(operator: UnaryOperator, operand: Kind) -> Kind
    ensures { result ≡ kind_by_unary operator operand }
{
    match operator {
        UnaryOperator::LogicalNot | UnaryOperator::Delete => Kind::Boolean,
        UnaryOperator::Void => Kind::Undefined,
        UnaryOperator::Typeof => Kind::String,
        UnaryOperator::UnaryPlus => Kind::Number,
        UnaryOperator::UnaryNegation | UnaryOperator::BitwiseNot => {
            number_if(is_primitive(operand))
        }
    }
}

fn sum_kind(left: Kind, right: Kind) -> Kind
    ensures { result ≡ kind_by_binary Addition left right }
{
    if is_string(left) || is_string(right) {
        Kind::String
    } else {
        number_if(is_added(left) && is_added(right))
    }
}

fn binary_kind(operator: BinaryOperator, left: Kind, right: Kind) -> Kind
    ensures { result ≡ kind_by_binary operator left right }
{
    match operator {
        BinaryOperator::Addition => sum_kind(left, right),
        BinaryOperator::ShiftRightZeroFill => Kind::Number,
        BinaryOperator::Subtraction
        | BinaryOperator::Multiplication
        | BinaryOperator::Division
        | BinaryOperator::Remainder
        | BinaryOperator::Exponential
        | BinaryOperator::BitwiseAnd
        | BinaryOperator::BitwiseOr
        | BinaryOperator::BitwiseXor
        | BinaryOperator::ShiftLeft
        | BinaryOperator::ShiftRight => number_if(is_number(left) || is_number(right)),
        _ => Kind::Boolean,
    }
}

fn name_kind(is_undefined: bool) -> Kind
    ensures { result ≡ choose is_undefined Undefined Undetermined }
{
    if is_undefined {
        Kind::Undefined
    } else {
        Kind::Undetermined
    }
}

// The Kind of the child at a place.
#[cycle(kinds)]
#[tactic(auto, using(crate::proofs::Children::kind_at, crate::proofs::Children::no_kind_at))]
pub fn child_kind(node: &Node, at: usize) -> Kind
    ensures { result ≡ nth_kind (each_kind (children node.now)) at }
{
    if at < node.children().len() {
        kind_of(node.child(at))
    } else {
        Kind::Undetermined
    }
}

// The Kind of the last child.
#[cycle(kinds)]
#[tactic(auto, using(crate::proofs::Children::last_kind_at, crate::proofs::Children::no_last_kind))]
fn last_kind(node: &Node) -> Kind
    ensures { result ≡ its_last_kind (each_kind (children node.now)) }
{
    let count = node.children().len();
    if count > 0 {
        kind_of(node.child(count - 1))
    } else {
        Kind::Undetermined
    }
}

/// Whether the child at a place is of a logical operator or a conditional, so that it may nest deep.
pub fn is_choice_at(node: &Node, at: usize) -> bool {
    at < node.children().len()
        && matches!(
            node.child(at).shape(),
            Shape::LogicalExpression(_) | Shape::ConditionalExpression
        )
}

// The Kind of the children at two places, where both have one: the other is looked at only where
// something is known of the first.
#[cycle(kinds)]
#[tactic(auto, using(crate::proofs::Children::unknown_left))]
fn kind_after(node: &Node, first: usize, second: usize) -> Kind
    ensures { result ≡ common_kind (nth_kind (each_kind (children node.now)) first) (nth_kind (each_kind (children node.now)) second) }
{
    let kind = child_kind(node, first);
    if is_unknown(kind) {
        return Kind::Undetermined;
    }
    common(kind, child_kind(node, second))
}

// The same, of which one that nests deep is looked at last.
#[cycle(kinds)]
#[tactic(auto, using(crate::proofs::Children::common_turned))]
fn kind_of_both(node: &Node, first: usize, second: usize) -> Kind
    ensures { result ≡ common_kind (nth_kind (each_kind (children node.now)) first) (nth_kind (each_kind (children node.now)) second) }
{
    if is_choice_at(node, first) {
        kind_after(node, second, first)
    } else {
        kind_after(node, first, second)
    }
}

/// What type of value an expression has, where that is known from its text.
#[cycle(kinds)]
#[tactic(auto, using(crate::proofs::Children::kind_is))]
pub fn kind_of(node: &Node) -> Kind
    ensures { result ≡ kind node.now }
{
    match node.shape() {
        Shape::Listed => last_kind(node),
        Shape::Identifier => name_kind(is_undefined_name(node.name())),
        Shape::NumericLiteral(_) => Kind::Number,
        Shape::StringLiteral(_) | Shape::TemplateLiteral => Kind::String,
        Shape::BooleanLiteral(_) | Shape::PrivateInExpression => Kind::Boolean,
        Shape::NullLiteral => Kind::Null,
        Shape::BigIntLiteral(_) => Kind::BigInt,
        Shape::UnaryExpression(operator) => unary_kind(*operator, child_kind(node, 0)),
        Shape::BinaryExpression(operator) => {
            binary_kind(*operator, child_kind(node, 0), child_kind(node, 1))
        }
        Shape::LogicalExpression(_) => kind_of_both(node, 0, 1),
        Shape::ConditionalExpression => kind_of_both(node, 1, 2),
        Shape::InnerExpression | Shape::SequenceExpression => child_kind(node, 0),
        Shape::AssignmentExpression(AssignmentOperator::Assign) => child_kind(node, 1),
        Shape::RegExpLiteral(_, _)
        | Shape::ArrayExpression
        | Shape::ObjectExpression
        | Shape::NewExpression
        | Shape::ArrowFunctionExpression(_)
        | Shape::Function(false, _, _)
        | Shape::Class(false) => Kind::Object,
        _ => Kind::Undetermined,
    }
}
