//! Whether an expression ends no chain that it stands in: each optional link in it stands in a
//! chain of its own.

ghost use Rattle.std.specs.Prelude.{◌≡◌};
ghost use Rattle.mini_model.specs.Tree.{shape_of};
ghost use Rattle.mini_rows.specs.Chains.{is_closed_shape, is_open_shape, is_calm as is_it_calm, are_calm as are_they_calm};

use mini_model::Shape;
use mini_node::{Node, Nodes};

// What runs inside it, if anything does, ends no chain around it: a name, a constant, `this`, what
// is absent, a function or a class, what the world evaluates whole, a pattern that assigns, and a
// chain of its own.
fn is_closed(node: &Node) -> bool
    ensures { result ≡ is_closed_shape (shape_of node.now) }
{
    matches!(
        node.shape(),
        Shape::Absent
            | Shape::Identifier
            | Shape::IdentifierName(_)
            | Shape::PrivateIdentifier(_)
            | Shape::NumericLiteral(_)
            | Shape::StringLiteral(_)
            | Shape::BooleanLiteral(_)
            | Shape::NullLiteral
            | Shape::RegExpLiteral(_, _)
            | Shape::BigIntLiteral(_)
            | Shape::ThisExpression
            | Shape::Function(false, _, _)
            | Shape::ArrowFunctionExpression(_)
            | Shape::Class(false)
            | Shape::SuperCallExpression
            | Shape::SuperStaticMemberExpression
            | Shape::SuperComputedMemberExpression
            | Shape::PrivateInExpression
            | Shape::TaggedTemplateExpression
            | Shape::TemplateElement(_, _, _)
            | Shape::MetaProperty(_)
            | Shape::ImportExpression
            | Shape::ChainExpression
            | Shape::ObjectAssignmentTarget
            | Shape::ArrayAssignmentTarget
    )
}

// It ends no chain where its parts end none: a link without `?.`, an operator, an array, an object
// or a template, and a list.
fn is_open(node: &Node) -> bool
    ensures { result ≡ is_open_shape (shape_of node.now) }
{
    matches!(
        node.shape(),
        Shape::Listed
            | Shape::InnerExpression
            | Shape::ArrayExpression
            | Shape::ObjectExpression
            | Shape::ObjectProperty(_, _, _, _)
            | Shape::SpreadElement
            | Shape::UnaryExpression(_)
            | Shape::UpdateExpression(_, _)
            | Shape::BinaryExpression(_)
            | Shape::LogicalExpression(_)
            | Shape::AssignmentExpression(_)
            | Shape::ConditionalExpression
            | Shape::SequenceExpression
            | Shape::CallExpression(false)
            | Shape::NewExpression
            | Shape::StaticMemberExpression(false)
            | Shape::ComputedMemberExpression(false)
            | Shape::PrivateFieldExpression(false)
            | Shape::YieldExpression(_)
            | Shape::TemplateLiteral
    )
}

/// Whether in an expression each optional link stands in a chain of its own, so that it ends no
/// chain that it stands in.
#[cycle(calmness)]
#[tactic(auto, using(crate::proofs::CalmParts::calm_is, crate::proofs::CalmParts::calm_below))]
pub fn is_calm(node: &Node) -> bool
    ensures { result ≡ is_it_calm node.now }
{
    is_closed(node) || (is_open(node) && are_calm(node.children()))
}

// Whether that is so of each of some nodes.
#[cycle(calmness)]
fn are_calm(nodes: &Nodes) -> bool
    ensures { result ≡ are_they_calm nodes.now }
{
    for at in 0..nodes.len() {
        if !is_calm(nodes.child(at)) {
            return false;
        }
    }
    true
}
