//! 77: what is left of a class, a `let` or a `const` that never runs: its names, which nothing
//! initializes.

ghost use Rattle.std.specs.Prelude.{◌≡◌, IfOk};
ghost use Rattle.mini_laws.specs.DeclaredNames.{names_of as declared_in};
ghost use Rattle.mini_laws.specs.declared.names.Declared.TheVariants as declared;
ghost use Rattle.mini_model.specs.Tree.{shape_of};
ghost use Rattle.mini_rows.specs.Lists as list;
ghost use Rattle.mini_rows.specs.DeadLexicals as row;

use mini_held::takes_names_along;
use mini_laws::Declared;
use mini_model::{Name, OutOfMemory, Shape, UnaryOperator, VariableDeclarationKind};
use mini_node::{Node, Nodes, absent, listed, of_one, of_two};
use mini_scope::push_names;
use std::alloc::Global;

// Whether the node declares names in its list, and is no function.
fn is_lexical(node: &Node) -> bool
    ensures { result ≡ row.is_lexical node.now }
{
    matches!(
        node.shape(),
        Shape::VariableDeclaration(VariableDeclarationKind::Let)
            | Shape::VariableDeclaration(VariableDeclarationKind::Const)
            | Shape::Class(true)
    )
}

// Whether there are two nodes, of which the second is an inner expression.
fn has_default(nodes: &Nodes) -> bool
    ensures { result ≡ row.has_default nodes.now }
{
    nodes.len() == 2 && matches!(nodes.child(1).shape(), Shape::InnerExpression)
}

// Whether each of the nodes gives the names that it binds.
#[cycle(giving)]
fn all_give(nodes: &Nodes) -> bool
    ensures { result ≡ row.all_give nodes.now }
{
    for at in 0..nodes.len() {
        if !gives(nodes.child(at)) {
            return false;
        }
    }
    true
}

// Whether the first of them does.
#[cycle(giving)]
#[tactic(auto, using(crate::proofs::Fading::no_first, crate::proofs::Fading::first_is))]
fn first_gives(nodes: &Nodes) -> bool
    ensures { result ≡ row.first_gives nodes.now }
{
    nodes.is_empty() || gives(nodes.child(0))
}

// Whether the names that a part of a declaration gives are those that it binds, as in any program.
#[cycle(giving)]
#[tactic(auto, using(crate::proofs::Fading::giving_is, crate::proofs::Fading::below))]
fn gives(node: &Node) -> bool
    ensures { result ≡ row.gives node.now }
{
    match node.shape() {
        Shape::BindingIdentifier => node.name().is_some(),
        Shape::Listed
        | Shape::ObjectPattern
        | Shape::ArrayPattern
        | Shape::BindingProperty(_, _)
        | Shape::RestElement => all_give(node.children()),
        Shape::VariableDeclarator => first_gives(node.children()),
        Shape::AssignmentPattern => has_default(node.children()) && first_gives(node.children()),
        Shape::UnaryExpression(UnaryOperator::LogicalNot)
        | Shape::VariableDeclaration(_)
        | Shape::Class(true)
        | Shape::SwitchCase
        | Shape::ExportNamedDeclaration
        | Shape::ExportDefaultDeclaration
        | Shape::ImportSpecifier
        | Shape::ImportDefaultSpecifier
        | Shape::ImportNamespaceSpecifier => false,
        _ => true,
    }
}

// Whether it takes along each other name in it that can't be written. A declaration has one list of
// declarators.
fn goes_whole(node: &Node) -> bool
    ensures { result ≡ row.goes_whole node.now }
{
    match node.shape() {
        Shape::VariableDeclaration(_) => {
            node.children().len() == 1 && takes_names_along(node.child(0))
        }
        _ => takes_names_along(node),
    }
}

/// Whether the statement is a class, a `let` or a `const` that gives the names it declares, and
/// takes along each other name in it that can't be written.
pub fn may_fade(node: &Node) -> bool
    ensures { result ≡ row.may_fade node.now }
{
    is_lexical(node) && first_gives(node.children()) && goes_whole(node)
}

// The names that it declares in its list.
fn lexical_names(alloc: Global, node: &Node) -> Result<Vec<Name>, OutOfMemory>
    ensures { IfOk result (λ names. names.items ≡ declared_in declared.Lexical node.now) }
{
    let mut names = Vec::new(alloc);
    push_names(alloc, Declared::Lexical, node, &mut names)?;
    Ok(names)
}

// A `const` stays one, and of anything else a `let` is left.
fn kind_left(node: &Node) -> VariableDeclarationKind
    ensures { result ≡ row.kind_left (shape_of node.now) }
{
    match node.shape() {
        Shape::VariableDeclaration(VariableDeclarationKind::Const) => {
            VariableDeclarationKind::Const
        }
        _ => VariableDeclarationKind::Let,
    }
}

// `0` in a `const`, and nothing in any other declaration
fn initializer(alloc: Global, kind: VariableDeclarationKind) -> Node
    ensures { result ≡ row.initializer kind }
{
    match kind {
        VariableDeclarationKind::Const => Node::leaf(alloc, Shape::NumericLiteral(0)),
        _ => absent(alloc),
    }
}

// `x`, or `x = 0`
fn declarator(alloc: Global, kind: VariableDeclarationKind, name: Name) -> Result<Node, OutOfMemory>
    ensures { IfOk result (λ made. made ≡ list.declarator (list.binding name) (row.initializer kind)) }
{
    let binding = Node::with(Shape::BindingIdentifier, Some(name), 0, Nodes::new(alloc));
    let children = of_two(alloc, binding, initializer(alloc, kind))?;
    Ok(Node::new(Shape::VariableDeclarator, children))
}

// A declarator of each name: `x`, or `x = 0`.
fn declarators(
    alloc: Global,
    kind: VariableDeclarationKind,
    names: Vec<Name>,
) -> Result<Nodes, OutOfMemory>
    ensures { IfOk result (λ made. made ≡ row.declarators kind names.items) }
{
    let mut made = Nodes::new(alloc);
    for name in names {
        let declarator = declarator(alloc, kind, name)?;
        made.push(declarator)?;
    }
    Ok(made)
}

// `let x, y;`
fn declaration(
    alloc: Global,
    kind: VariableDeclarationKind,
    declarators: Nodes,
) -> Result<Node, OutOfMemory>
    ensures { IfOk result (λ made. made ≡ list.declaration kind declarators) }
{
    let children = of_one(alloc, listed(declarators))?;
    Ok(Node::new(Shape::VariableDeclaration(kind), children))
}

/// What is left of a class, a `let` or a `const` that never runs: its names, in a declaration that
/// initializes nothing but each name of a `const`, with `0`. The only error is that memory runs
/// out.
pub fn faded(alloc: Global, node: &Node) -> Result<Nodes, OutOfMemory>
    ensures { IfOk result (λ left. left ≡ row.faded node.now) }
{
    let kind = kind_left(node);
    let made = declarators(alloc, kind, lexical_names(alloc, node)?)?;
    if made.is_empty() {
        return Ok(made);
    }
    let declared = declaration(alloc, kind, made)?;
    of_one(alloc, declared)
}
