//! Names that can't be written, in a statement or an expression that goes: each is declared by a
//! scope in it, and goes with that.

ghost use Rattle.std.specs.Prelude.{◌≡◌, ◌<◌, ◌&&◌, nat_eq, true, false};
ghost use Rattle.mini_model.specs.Tree.{children, child_or_absent, count, shape_of};
ghost use Rattle.mini_rows.specs.Lists as list;

use mini_model::{Shape, UnaryOperator, VariableDeclarationKind};
use mini_node::{Node, Nodes};

// Whether the node is a name that is declared, or absent.
fn is_name(node: &Node) -> bool
    ensures { result ≡ list.is_name_shape (shape_of node.now) }
{
    matches!(node.shape(), Shape::BindingIdentifier | Shape::Absent)
}

// Whether each of the nodes gives the names that it binds.
#[cycle(binding)]
fn all_bind(nodes: &Nodes) -> bool
    ensures { result ≡ list.all_bind nodes.now }
{
    for at in 0..nodes.len() {
        if !binds(nodes.child(at)) {
            return false;
        }
    }
    true
}

// Whether the first of them does.
#[cycle(binding)]
#[tactic(auto, using(crate::proofs::Enclosing::no_first, crate::proofs::Enclosing::first_is))]
fn first_binds(nodes: &Nodes) -> bool
    ensures { result ≡ list.first_binds nodes.now }
{
    nodes.is_empty() || binds(nodes.child(0))
}

// Whether a part of a declaration gives the names that it binds, and no statement or declaration
// stands there.
#[cycle(binding)]
#[tactic(auto, using(crate::proofs::Enclosing::binding_is, crate::proofs::Enclosing::below))]
fn binds(node: &Node) -> bool
    ensures { result ≡ list.binds node.now }
{
    match node.shape() {
        Shape::Listed
        | Shape::ObjectPattern
        | Shape::ArrayPattern
        | Shape::BindingProperty(_, _)
        | Shape::RestElement => all_bind(node.children()),
        Shape::VariableDeclarator | Shape::AssignmentPattern => first_binds(node.children()),
        Shape::UnaryExpression(UnaryOperator::LogicalNot)
        | Shape::VariableDeclaration(_)
        | Shape::Class(true)
        | Shape::SwitchCase
        | Shape::ExportNamedDeclaration
        | Shape::ExportDefaultDeclaration => false,
        _ => true,
    }
}

// Whether there are so many nodes, and the one at a place is a name.
fn is_name_at(nodes: &Nodes, amount: usize, at: usize) -> bool
    requires { at < amount }
    ensures { result ≡ (nat_eq (count nodes.now) amount && list.is_name_shape (shape_of (child_or_absent nodes.now at))) }
{
    nodes.len() == amount && is_name(nodes.child(at))
}

// Whether a scope declares the node's own name that it opens itself, or one around it, where one
// holds it.
fn encloses_itself(node: &Node, held: bool) -> bool
    ensures { result ≡ list.encloses_by held (shape_of node.now) (children node.now) }
{
    match node.shape() {
        Shape::VariableDeclaration(VariableDeclarationKind::Const) => {
            held && first_binds(node.children())
        }
        Shape::Function(false, _, _) => is_name_at(node.children(), 3, 0),
        Shape::Class(false) => is_name_at(node.children(), 4, 0),
        Shape::Class(true) => is_name_at(node.children(), 4, 3),
        Shape::ImportSpecifier | Shape::ImportDefaultSpecifier | Shape::ImportNamespaceSpecifier =>
            false,
        _ => true,
    }
}

fn is_first(at: usize) -> bool
    ensures { result ≡ list.is_first at }
{
    matches!(at, 0)
}

fn is_second(at: usize) -> bool
    ensures { result ≡ list.is_second at }
{
    matches!(at, 1)
}

fn is_third(at: usize) -> bool
    ensures { result ≡ list.is_third at }
{
    matches!(at, 2)
}

// Whether a node of this shape opens a scope of the names that a child declares.
fn scopes_child(shape: &Shape, at: usize) -> bool
    ensures { result ≡ list.scopes_child shape.now at }
{
    match shape {
        Shape::BlockStatement
        | Shape::StaticBlock
        | Shape::ForStatement
        | Shape::ForInStatement
        | Shape::ForOfStatement => is_first(at),
        Shape::SwitchStatement | Shape::ArrowFunctionExpression(_) => is_second(at),
        Shape::Function(_, _, _) => is_third(at),
        _ => false,
    }
}

// Whether it declares those names itself.
fn hands_on_child(shape: &Shape, at: usize) -> bool
    ensures { result ≡ list.hands_on_child shape.now at }
{
    match shape {
        Shape::FunctionBody => is_first(at),
        Shape::SwitchCase => is_second(at),
        Shape::Listed => true,
        _ => false,
    }
}

fn has_body(shape: &Shape) -> bool
    ensures { result ≡ list.has_body shape.now }
{
    matches!(
        shape,
        Shape::ArrowFunctionExpression(_) | Shape::Function(_, _, _)
    )
}

fn is_body(shape: &Shape) -> bool
    ensures { result ≡ list.is_body_of_function shape.now }
{
    matches!(shape, Shape::FunctionBody)
}

// Whether a scope has the names that the child declares at a place, of the second shape: the
// node's, or one around it.
fn holds(held: bool, shape: &Shape, at: usize, child: &Shape) -> bool
    ensures { result ≡ list.holds held shape.now at child.now }
{
    (scopes_child(shape, at) || (hands_on_child(shape, at) && held))
        && (has_body(shape) || !is_body(child))
}

#[cycle(enclosing)]
fn all_enclose(held: bool, shape: &Shape, nodes: &Nodes) -> bool
    ensures { result ≡ list.all_enclose held shape.now 0 nodes.now }
{
    for at in 0..nodes.len() {
        let child = nodes.child(at);
        if !encloses(holds(held, shape, at, child.shape()), child) {
            return false;
        }
    }
    true
}

#[cycle(enclosing)]
#[tactic(auto, using(crate::proofs::Enclosing::enclosing_is, crate::proofs::Enclosing::below))]
fn encloses(held: bool, node: &Node) -> bool
    ensures { result ≡ list.encloses held node.now }
{
    encloses_itself(node, held) && all_enclose(held, node.shape(), node.children())
}

/// Whether each name in the node that can't be written is declared by a scope in it, as in any
/// statement or expression of a program.
pub fn takes_names_along(node: &Node) -> bool
    ensures { result ≡ list.encloses false node.now }
{
    encloses(false, node)
}
