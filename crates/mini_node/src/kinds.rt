//! What kind of node it is. Where the answer is yes a caller knows how many children there are.

ghost use Rattle.std.specs.Prelude.{◌≡◌, true, IfSome};
ghost use Rattle.std.specs.Option.{option_copied};
ghost use Rattle.mini_model.specs.Tree.{children, count};
ghost use Rattle.mini_node.specs.Children.{names};
ghost use Rattle.mini_node.specs.Kinds as kind;

use crate::node::Node;
use mini_model::{
    AssignmentOperator, BinaryOperator, LogicalOperator, Name, Shape, SymbolId, Text, UnaryOperator,
};

/// Whether the part is absent.
pub fn is_absent_part(node: &Node) -> bool
    ensures { result ≡ kind.is_absent_part node.now }
{
    matches!(node.shape(), Shape::Absent) && node.is_bare(0)
}

/// Whether the node is the items of a list field, which are its children.
pub fn is_listed(node: &Node) -> bool
    ensures { result ≡ kind.is_listed node.now }
{
    matches!(node.shape(), Shape::Listed) && node.is_nameless()
}

/// Whether the node is `!a`.
pub fn is_negation(node: &Node) -> bool
    ensures kind { result ≡ kind.is_negation node.now }
    ensures parts { result ≡ true → count (children node.now) ≡ 1 }
{
    match node.shape() {
        Shape::UnaryExpression(UnaryOperator::LogicalNot) => node.is_bare(1),
        _ => false,
    }
}

// Whether the operators are one.
fn is_operator(own: LogicalOperator, operator: LogicalOperator) -> bool
    ensures { result ≡ kind.same_logical own operator }
{
    match (own, operator) {
        (LogicalOperator::And, LogicalOperator::And) => true,
        (LogicalOperator::Or, LogicalOperator::Or) => true,
        (LogicalOperator::Coalesce, LogicalOperator::Coalesce) => true,
        _ => false,
    }
}

/// Whether the node is a logical expression of this operator: `a && b`, `a || b` or `a ?? b`.
pub fn is_logical(node: &Node, operator: LogicalOperator) -> bool
    ensures kind { result ≡ kind.is_logical operator node.now }
    ensures parts { result ≡ true → count (children node.now) ≡ 2 }
{
    match node.shape() {
        Shape::LogicalExpression(own) => is_operator(*own, operator) && node.is_bare(2),
        _ => false,
    }
}

/// Whether the node is `a ? b : c`.
pub fn is_conditional(node: &Node) -> bool
    ensures kind { result ≡ kind.is_conditional node.now }
    ensures parts { result ≡ true → count (children node.now) ≡ 3 }
{
    matches!(node.shape(), Shape::ConditionalExpression) && node.is_bare(3)
}

/// Whether the node is `a, b`. Its one child is the list of its parts.
pub fn is_sequence(node: &Node) -> bool
    ensures kind { result ≡ kind.is_sequence node.now }
    ensures parts { result ≡ true → count (children node.now) ≡ 1 }
{
    match node.shape() {
        Shape::SequenceExpression => node.is_bare(1) && is_listed(node.child(0)),
        _ => false,
    }
}

/// Whether the node is `a;`.
pub fn is_expression_statement(node: &Node) -> bool
    ensures kind { result ≡ kind.is_expression_statement node.now }
    ensures parts { result ≡ true → count (children node.now) ≡ 1 }
{
    matches!(node.shape(), Shape::ExpressionStatement) && node.is_bare(1)
}

/// Whether the node is `;`.
pub fn is_empty_statement(node: &Node) -> bool
    ensures { result ≡ kind.is_empty_statement node.now }
{
    matches!(node.shape(), Shape::EmptyStatement) && node.is_bare(0)
}

/// Whether the node is `{ a; b; }`. Its one child is the list of its statements.
pub fn is_block(node: &Node) -> bool
    ensures kind { result ≡ kind.is_block node.now }
    ensures parts { result ≡ true → count (children node.now) ≡ 1 }
{
    match node.shape() {
        Shape::BlockStatement => node.is_bare(1) && is_listed(node.child(0)),
        _ => false,
    }
}

/// Whether the node is `if (a) b else c`, or the same without `else`, whose last child is absent
/// then.
pub fn is_if_statement(node: &Node) -> bool
    ensures kind { result ≡ kind.is_if_statement node.now }
    ensures parts { result ≡ true → count (children node.now) ≡ 3 }
{
    matches!(node.shape(), Shape::IfStatement) && node.is_bare(3)
}

/// Whether the node is `if (a) b` without `else`.
pub fn is_if_alone(node: &Node) -> bool
    ensures kind { result ≡ kind.is_if_alone node.now }
    ensures parts { result ≡ true → count (children node.now) ≡ 3 }
{
    is_if_statement(node) && is_absent_part(node.child(2))
}

/// Whether the node is `return a;`, or `return;`, whose child is absent then.
pub fn is_return_statement(node: &Node) -> bool
    ensures kind { result ≡ kind.is_return_statement node.now }
    ensures parts { result ≡ true → count (children node.now) ≡ 1 }
{
    matches!(node.shape(), Shape::ReturnStatement) && node.is_bare(1)
}

/// Whether the node is `throw a;`.
pub fn is_throw_statement(node: &Node) -> bool
    ensures kind { result ≡ kind.is_throw_statement node.now }
    ensures parts { result ≡ true → count (children node.now) ≡ 1 }
{
    matches!(node.shape(), Shape::ThrowStatement) && node.is_bare(1)
}

/// The operator of a unary expression; None of any other node.
pub fn unary_operator(node: &Node) -> Option<UnaryOperator>
    ensures kind { result ≡ kind.unary_operator node.now }
    ensures parts { IfSome result (λ _. count (children node.now) ≡ 1) }
{
    match node.shape() {
        Shape::UnaryExpression(operator) if node.is_bare(1) => Some(*operator),
        _ => None,
    }
}

/// The operator of a binary expression; None of any other node.
pub fn binary_operator(node: &Node) -> Option<BinaryOperator>
    ensures kind { result ≡ kind.binary_operator node.now }
    ensures parts { IfSome result (λ _. count (children node.now) ≡ 2) }
{
    match node.shape() {
        Shape::BinaryExpression(operator) if node.is_bare(2) => Some(*operator),
        _ => None,
    }
}

/// The operator of a logical expression; None of any other node.
pub fn logical_operator(node: &Node) -> Option<LogicalOperator>
    ensures kind { result ≡ kind.logical_operator node.now }
    ensures parts { IfSome result (λ _. count (children node.now) ≡ 2) }
{
    match node.shape() {
        Shape::LogicalExpression(operator) if node.is_bare(2) => Some(*operator),
        _ => None,
    }
}

/// The operator of an assignment; None of any other node.
pub fn assignment_operator(node: &Node) -> Option<AssignmentOperator>
    ensures kind { result ≡ kind.assignment_operator node.now }
    ensures parts { IfSome result (λ _. count (children node.now) ≡ 2) }
{
    match node.shape() {
        Shape::AssignmentExpression(operator) if node.is_bare(2) => Some(*operator),
        _ => None,
    }
}

/// The value of a numeric literal; None of any other node.
pub fn number(node: &Node) -> Option<i64>
    ensures { result ≡ kind.number node.now }
{
    match node.shape() {
        Shape::NumericLiteral(value) if node.is_bare(0) => Some(*value),
        _ => None,
    }
}

/// The value of a boolean literal; None of any other node.
pub fn boolean(node: &Node) -> Option<bool>
    ensures { result ≡ kind.boolean node.now }
{
    match node.shape() {
        Shape::BooleanLiteral(value) if node.is_bare(0) => Some(*value),
        _ => None,
    }
}

/// The value of a string literal; None of any other node.
pub fn string(node: &Node) -> Option<&Text>
    ensures { option_copied result ≡ kind.string node.now }
{
    match node.shape() {
        Shape::StringLiteral(text) if node.is_bare(0) => Some(text),
        _ => None,
    }
}

/// Whether the node is `null`.
pub fn is_null(node: &Node) -> bool
    ensures { result ≡ kind.is_null node.now }
{
    matches!(node.shape(), Shape::NullLiteral) && node.is_bare(0)
}

/// Whether the node is a name that is read or written, which `Node::name` then gives.
pub fn is_identifier(node: &Node) -> bool
    ensures { result ≡ kind.is_identifier node.now }
{
    matches!(node.shape(), Shape::Identifier) && node.is_named_leaf()
}

/// Whether the node is `f(a, b)`, and no link of a chain that may end there. Its second child is
/// the list of the arguments.
pub fn is_call_expression(node: &Node) -> bool
    ensures kind { result ≡ kind.is_call_expression node.now }
    ensures parts { result ≡ true → count (children node.now) ≡ 2 }
{
    match node.shape() {
        Shape::CallExpression(false) => node.is_bare(2) && is_listed(node.child(1)),
        _ => false,
    }
}

/// Whether the node is `a.x`, and no link of a chain that may end there.
pub fn is_static_member(node: &Node) -> bool
    ensures kind { result ≡ kind.is_static_member node.now }
    ensures parts { result ≡ true → count (children node.now) ≡ 2 }
{
    matches!(node.shape(), Shape::StaticMemberExpression(false)) && node.is_bare(2)
}

/// Whether the node is `a[x]`, and no link of a chain that may end there.
pub fn is_computed_member(node: &Node) -> bool
    ensures kind { result ≡ kind.is_computed_member node.now }
    ensures parts { result ≡ true → count (children node.now) ≡ 2 }
{
    matches!(node.shape(), Shape::ComputedMemberExpression(false)) && node.is_bare(2)
}

// Whether there are two symbols, and they are one.
fn is_symbol(first: Option<SymbolId>, second: Option<SymbolId>) -> bool
    ensures { result ≡ kind.same_symbol first second }
{
    match (first, second) {
        (Some(one), Some(other)) => one.0 == other.0,
        _ => false,
    }
}

/// Whether both are names with a symbol, and it is one.
pub fn is_same_symbol(first: &Option<Name>, second: &Option<Name>) -> bool
    ensures { result ≡ kind.same_names (names first.now) (names second.now) }
{
    match (first, second) {
        (Some(one), Some(other)) => is_symbol(one.symbol, other.symbol),
        _ => false,
    }
}
