//! Where nothing is declared.

ghost use Rattle.std.specs.Prelude.{◌≡◌};
ghost use Rattle.mini_rows.specs.Lists as list;

use mini_model::{Shape, UnaryOperator, VariableDeclarationKind};
use mini_node::Node;

/// Whether nothing is declared there, as by an expression.
#[tactic(auto, using(crate::proofs::Operands::operand_declares, crate::proofs::Operands::no_operand))]
pub fn declares_nothing(node: &Node) -> bool
    ensures { result ≡ list.declares_nothing node.now }
{
    match node.shape() {
        Shape::UnaryExpression(UnaryOperator::LogicalNot) => {
            node.children().len() > 0 && declares_nothing(node.child(0))
        }
        Shape::Function(is_declaration, _, _) => !*is_declaration,
        Shape::Class(is_declaration) => !*is_declaration,
        Shape::Absent
        | Shape::Listed
        | Shape::BindingIdentifier
        | Shape::ObjectPattern
        | Shape::ArrayPattern
        | Shape::BindingProperty(_, _)
        | Shape::RestElement
        | Shape::AssignmentPattern
        | Shape::VariableDeclarator
        | Shape::VariableDeclaration(_)
        | Shape::SwitchCase
        | Shape::ExportNamedDeclaration
        | Shape::ExportDefaultDeclaration => false,
        _ => true,
    }
}

// Whether a declarator has no initializer.
fn lacks_initializer(node: &Node) -> bool
    ensures { result ≡ list.lacks_initializer node.now }
{
    node.children().len() == 2 && matches!(node.child(1).shape(), Shape::Absent)
}

// Whether it is a declarator without an initializer.
fn is_bare_declarator(node: &Node) -> bool
    ensures { result ≡ list.is_bare_declarator node.now }
{
    matches!(node.shape(), Shape::VariableDeclarator) && lacks_initializer(node)
}

// Whether there is one declarator, without an initializer.
fn are_bare(node: &Node) -> bool
    ensures { result ≡ list.are_bare node.now }
{
    matches!(node.shape(), Shape::Listed)
        && node.children().len() == 1
        && is_bare_declarator(node.child(0))
}

/// A `var`.
pub fn is_var_shape(shape: &Shape) -> bool
    ensures { result ≡ list.is_var_shape shape.now }
{
    matches!(
        shape,
        Shape::VariableDeclaration(VariableDeclarationKind::Var)
    )
}

/// `var x`, without an initializer.
pub fn is_bare_var(node: &Node) -> bool
    ensures { result ≡ list.is_bare_var node.now }
{
    is_var_shape(node.shape()) && node.children().len() == 1 && are_bare(node.child(0))
}
