//! Statements whose lexical names may leave their scope: no event of the body with a number shows
//! them, and none stands in a node outside of it.

ghost use Rattle.std.specs.Prelude.{◌≡◌};
ghost use Rattle.mini_node.specs.Children.{names, trees_of};
ghost use Rattle.mini_rows.specs.Lexical as lexical;
ghost use Rattle.mini_lexical.specs.Held.{is_each, is_first, is_itself};

use mini_model::{Name, Shape, SymbolId, UnaryOperator, VariableDeclarationKind};
use mini_node::Node;
use mini_steady::SteadyNames;
use mini_stmt::statement_cares_about_scope;
use mini_unused::is_mentioned;

// A scope declares the name, and no event of the body with this number shows it.
fn is_unshared<S: SteadyNames>(symbol: Option<SymbolId>, body: u32, steady: &S) -> bool
    ensures { result ≡ lexical.is_of_by (S.sets steady.now body).unshared symbol }
{
    match symbol {
        Some(symbol) => steady.is_unshared(symbol, body),
        None => false,
    }
}

// A scope declares the name, no event of the body shows it, and it doesn't stand in what is
// outside.
#[tactic(auto, using(crate::proofs::HeldNames::and_one))]
fn passes<S: SteadyNames>(name: &Option<Name>, outside: &Node, body: u32, steady: &S) -> bool
    ensures { result ≡ lexical.all_pass (lexical.is_of_outside (S.sets steady.now body).unshared outside.now) (names name.now) }
{
    match name {
        Some(name) => is_unshared(name.symbol, body, steady) && !is_mentioned(name, outside),
        None => true,
    }
}

// What binds its own name.
fn binds_itself(shape: &Shape) -> bool
    ensures { result ≡ is_itself (lexical.binds_at shape.now) }
{
    matches!(shape, Shape::BindingIdentifier)
}

// What binds the names of its parts.
fn binds_each(shape: &Shape) -> bool
    ensures { result ≡ is_each (lexical.binds_at shape.now) }
{
    matches!(
        shape,
        Shape::Listed
            | Shape::ObjectPattern
            | Shape::ArrayPattern
            | Shape::BindingProperty(_, _)
            | Shape::RestElement
            | Shape::AssignmentPattern
            | Shape::ImportSpecifier
            | Shape::ImportDefaultSpecifier
            | Shape::ImportNamespaceSpecifier
            | Shape::VariableDeclaration(_)
            | Shape::SwitchCase
    )
}

// What binds the names of its first part.
fn binds_first(shape: &Shape) -> bool
    ensures { result ≡ is_first (lexical.binds_at shape.now) }
{
    matches!(
        shape,
        Shape::VariableDeclarator
            | Shape::Class(true)
            | Shape::ExportNamedDeclaration
            | Shape::ExportDefaultDeclaration
            | Shape::UnaryExpression(UnaryOperator::LogicalNot)
    )
}

// Each name passes that it binds.
#[cycle(binding)]
#[tactic(auto, using(crate::proofs::HeldNames::by_itself, crate::proofs::HeldNames::by_each, crate::proofs::HeldNames::by_first, crate::proofs::HeldNames::by_nothing))]
fn binds_only<S: SteadyNames>(node: &Node, outside: &Node, body: u32, steady: &S) -> bool
    ensures { result ≡ lexical.binds_only (lexical.is_of_outside (S.sets steady.now body).unshared outside.now) node.now }
{
    if binds_itself(node.shape()) {
        passes(node.name(), outside, body, steady)
    } else if binds_each(node.shape()) {
        all_bind_only(node.parts(), outside, body, steady)
    } else if binds_first(node.shape()) {
        first_binds_only(node.parts(), outside, body, steady)
    } else {
        true
    }
}

// Each that one of these nodes binds.
#[cycle(binding)]
fn all_bind_only<S: SteadyNames>(nodes: &[Node], outside: &Node, body: u32, steady: &S) -> bool
    ensures { result ≡ lexical.all_bind_only (lexical.is_of_outside (S.sets steady.now body).unshared outside.now) (trees_of nodes.now) }
{
    match nodes {
        [first, rest @ ..] => {
            binds_only(first, outside, body, steady) && all_bind_only(rest, outside, body, steady)
        }
        [] => true,
    }
}

// Each that the first binds.
#[cycle(binding)]
fn first_binds_only<S: SteadyNames>(nodes: &[Node], outside: &Node, body: u32, steady: &S) -> bool
    ensures { result ≡ lexical.first_binds_only (lexical.is_of_outside (S.sets steady.now body).unshared outside.now) (trees_of nodes.now) }
{
    match nodes {
        [first, ..] => binds_only(first, outside, body, steady),
        [] => true,
    }
}

// A `let`, a `const` or a class.
fn is_lexical(shape: &Shape) -> bool
    ensures { result ≡ lexical.is_lexical_shape shape.now }
{
    matches!(
        shape,
        Shape::VariableDeclaration(VariableDeclarationKind::Let | VariableDeclarationKind::Const)
            | Shape::Class(true)
    )
}

// The lexical names of a statement pass.
fn is_held<S: SteadyNames>(node: &Node, outside: &Node, body: u32, steady: &S) -> bool
    ensures { result ≡ lexical.is_held (lexical.is_of_outside (S.sets steady.now body).unshared outside.now) node.now }
{
    !statement_cares_about_scope(node)
        || (is_lexical(node.shape()) && binds_only(node, outside, body, steady))
}

/// Whether statements may stand outside of the scope of their block: no function is directly among
/// them, and of each name that they declare lexically no event of the body with this number shows
/// it, and it stands nowhere in what is outside (ECMA-262, "LexicallyDeclaredNames").
pub fn are_held<S: SteadyNames>(nodes: &[Node], outside: &Node, body: u32, steady: &S) -> bool
    ensures { result ≡ lexical.are_held (lexical.is_of_outside (S.sets steady.now body).unshared outside.now) (trees_of nodes.now) }
{
    match nodes {
        [first, rest @ ..] => {
            is_held(first, outside, body, steady) && are_held(rest, outside, body, steady)
        }
        [] => true,
    }
}
