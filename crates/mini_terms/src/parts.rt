//! Parts that may stay where their node stood, and parts that may be dropped, in code.

ghost use Rattle.std.specs.Prelude.{◌≡◌, ◌&&◌};
ghost use Rattle.mini_model.specs.Tree.{children, shape_of};
ghost use Rattle.mini_node.specs.Children.{names};
ghost use Rattle.mini_terms.specs.Reading as term;
ghost use Rattle.mini_terms.specs.Parts as part;
ghost use Rattle.mini_terms.specs.Reading.{first_of, are_plain_parts};

use mini_model::{Guard, Name, Seat, Shape, UnaryOperator, VariableDeclarationKind};
use mini_node::{Node, Nodes};

/// Whether an expression is no name, no member and no chain, so that whatever is asked of it is
/// asked of its value.
pub fn stands(node: &Node) -> bool
    ensures { result ≡ term.stands node.now }
{
    matches!(
        node.shape(),
        Shape::NumericLiteral(_)
            | Shape::StringLiteral(_)
            | Shape::BooleanLiteral(_)
            | Shape::NullLiteral
            | Shape::RegExpLiteral(_, _)
            | Shape::ThisExpression
            | Shape::ArrayExpression
            | Shape::ObjectExpression
            | Shape::UnaryExpression(_)
            | Shape::UpdateExpression(_, _)
            | Shape::BinaryExpression(_)
            | Shape::PrivateInExpression
            | Shape::LogicalExpression(_)
            | Shape::AssignmentExpression(_)
            | Shape::ConditionalExpression
            | Shape::SequenceExpression
            | Shape::CallExpression(_)
            | Shape::SuperCallExpression
            | Shape::NewExpression
            | Shape::YieldExpression(_)
            | Shape::TemplateLiteral
            | Shape::TaggedTemplateExpression
            | Shape::MetaProperty(_)
            | Shape::ImportExpression
            | Shape::ArrowFunctionExpression(_)
    )
}

/// Whether an expression may be an item of a list.
pub fn is_item(node: &Node) -> bool
    ensures { result ≡ term.is_item node.now }
{
    match node.shape() {
        Shape::Identifier
        | Shape::StaticMemberExpression(_)
        | Shape::ComputedMemberExpression(_)
        | Shape::PrivateFieldExpression(_)
        | Shape::SuperStaticMemberExpression
        | Shape::SuperComputedMemberExpression
        | Shape::Function(false, _, _)
        | Shape::Class(false)
        | Shape::BigIntLiteral(_)
        | Shape::ChainExpression => true,
        _ => stands(node),
    }
}

// Whether a name is one that a scope declares.
fn is_declared(name: &Option<Name>) -> bool
    ensures { result ≡ term.is_declared (names name.now) }
{
    match name {
        Some(name) => name.symbol.is_some(),
        None => false,
    }
}

/// Whether `typeof` reads an expression by its value: of names those that a scope declares, since
/// another may be absent (ECMA-262, "The typeof Operator").
pub fn is_typed_by_value(node: &Node) -> bool
    ensures { result ≡ term.is_typed_by_value node.now }
{
    match node.shape() {
        Shape::Identifier => is_declared(node.name()),
        _ => is_item(node),
    }
}

// Whether the first child is read no further.
#[cycle(plain)]
#[tactic(auto, using(crate::proofs::Children::first_plain, crate::proofs::Children::no_plain))]
fn is_first_plain(node: &Node) -> bool
    ensures { result ≡ first_of (are_plain_parts (children node.now)) }
{
    node.children().len() > 0 && is_plain_part(node.child(0))
}

/// Whether a parent reads no more of an expression than that it is there.
#[cycle(plain)]
#[tactic(auto, using(crate::proofs::Children::plain_is))]
pub fn is_plain_part(node: &Node) -> bool
    ensures { result ≡ term.is_plain_part node.now }
{
    match node.shape() {
        Shape::CallExpression(is_optional)
        | Shape::StaticMemberExpression(is_optional)
        | Shape::ComputedMemberExpression(is_optional) => !*is_optional && is_first_plain(node),
        Shape::PrivateFieldExpression(_) => false,
        Shape::UnaryExpression(UnaryOperator::LogicalNot) => is_first_plain(node),
        _ => is_item(node),
    }
}

fn is_unguarded(guard: Guard) -> bool
    ensures { result ≡ term.is_unguarded guard }
{
    matches!(guard, Guard::None)
}

// Whether no reference is asked in the seat, or the expression is none.
fn is_read_by_value(seat: Seat, node: &Node) -> bool
    ensures { result ≡ term.is_read_by_value seat node.now }
{
    (is_unguarded(seat.guard) && is_item(node)) || stands(node)
}

fn is_number(node: &Node) -> bool
    ensures { result ≡ part.is_number node.now }
{
    matches!(node.shape(), Shape::NumericLiteral(_))
}

fn takes_numbers(seat: Seat) -> bool
    ensures { result ≡ part.takes_numbers seat }
{
    seat.boolean || !seat.minus
}

/// Whether a part may stand in the seat of its node.
pub fn suits(seat: Seat, node: &Node) -> bool
    ensures { result ≡ part.suits seat node.now }
{
    is_plain_part(node) && is_read_by_value(seat, node) && (takes_numbers(seat) || !is_number(node))
}

fn leaves_nothing_itself(node: &Node) -> bool
    ensures { result ≡ part.leaves_nothing_by (shape_of node.now) }
{
    match node.shape() {
        Shape::InnerExpression
        | Shape::VariableDeclaration(VariableDeclarationKind::Const)
        | Shape::Function(false, _, _)
        | Shape::Class(_)
        | Shape::ImportSpecifier
        | Shape::ImportDefaultSpecifier
        | Shape::ImportNamespaceSpecifier => false,
        _ => true,
    }
}

#[cycle(leaving)]
fn leave_nothing(nodes: &Nodes) -> bool
    ensures { result ≡ part.leave_nothing nodes.now }
{
    for at in 0..nodes.len() {
        if !leaves_nothing(nodes.child(at)) {
            return false;
        }
    }
    true
}

/// Whether a node that is dropped leaves nothing behind: it holds no inner expression, and declares
/// nothing that can't be written.
#[cycle(leaving)]
#[tactic(auto, using(crate::proofs::Children::leaving_is, crate::proofs::Children::below))]
pub fn leaves_nothing(node: &Node) -> bool
    ensures { result ≡ part.leaves_nothing node.now }
{
    leaves_nothing_itself(node) && leave_nothing(node.children())
}

fn has_name(name: &Option<Name>) -> bool
    ensures { result ≡ part.has_name (names name.now) }
{
    name.is_some()
}

fn is_link(node: &Node) -> bool
    ensures { result ≡ part.is_link (shape_of node.now) }
{
    matches!(
        node.shape(),
        Shape::CallExpression(_)
            | Shape::StaticMemberExpression(_)
            | Shape::ComputedMemberExpression(_)
            | Shape::PrivateFieldExpression(_)
    )
}

#[tactic(auto, using(crate::proofs::Children::several_is, crate::proofs::Children::few_are))]
fn is_several(node: &Node) -> bool
    ensures { result ≡ part.is_several node.now }
{
    matches!(node.shape(), Shape::Listed) && node.children().len() >= 2
}

#[tactic(auto, using(crate::proofs::Children::first_several, crate::proofs::Children::none_several))]
fn is_first_several(node: &Node) -> bool
    ensures { result ≡ part.first_is_several (children node.now) }
{
    node.children().len() > 0 && is_several(node.child(0))
}

#[tactic(auto, using(crate::proofs::Children::first_link, crate::proofs::Children::no_link))]
fn is_first_link(node: &Node) -> bool
    ensures { result ≡ part.first_is_link (children node.now) }
{
    node.children().len() > 0 && is_link(node.child(0))
}

#[tactic(auto, using(crate::proofs::Children::second_template, crate::proofs::Children::no_template))]
fn is_second_template(node: &Node) -> bool
    ensures { result ≡ part.second_is_template (children node.now) }
{
    node.children().len() > 1 && matches!(node.child(1).shape(), Shape::TemplateLiteral)
}

fn weighs_itself(node: &Node) -> bool
    ensures { result ≡ part.weighs_by (shape_of node.now) }
{
    match node.shape() {
        Shape::NumericLiteral(_)
        | Shape::StringLiteral(_)
        | Shape::BooleanLiteral(_)
        | Shape::NullLiteral
        | Shape::BigIntLiteral(_)
        | Shape::RegExpLiteral(_, _)
        | Shape::ThisExpression
        | Shape::ArrayExpression
        | Shape::ObjectExpression
        | Shape::Function(false, _, _)
        | Shape::ArrowFunctionExpression(_)
        | Shape::Class(false)
        | Shape::UnaryExpression(_)
        | Shape::UpdateExpression(_, _)
        | Shape::BinaryExpression(_)
        | Shape::LogicalExpression(_)
        | Shape::AssignmentExpression(_)
        | Shape::ConditionalExpression
        | Shape::NewExpression
        | Shape::YieldExpression(_)
        | Shape::TemplateLiteral
        | Shape::PrivateInExpression
        | Shape::SuperCallExpression
        | Shape::SuperStaticMemberExpression
        | Shape::SuperComputedMemberExpression
        | Shape::ImportExpression
        | Shape::MetaProperty(_) => true,
        _ => is_link(node),
    }
}

/// Whether an expression weighs 2 at least, wherever it stands.
#[tactic(auto, using(crate::proofs::Children::weighs_is))]
pub fn weighs(node: &Node) -> bool
    ensures { result ≡ part.weighs node.now }
{
    match node.shape() {
        Shape::Identifier => has_name(node.name()),
        Shape::SequenceExpression => is_first_several(node),
        Shape::ChainExpression => is_first_link(node),
        Shape::TaggedTemplateExpression => is_second_template(node),
        _ => weighs_itself(node),
    }
}
