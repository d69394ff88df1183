//! The names that a statement declares in the scope around it.

ghost use Rattle.std.specs.Prelude.{◌≡◌, ◌++◌, OnOk};
ghost use Rattle.mini_model.specs.Tree.{shape_of};
ghost use Rattle.mini_node.specs.Children.{names, names_of, trees_of};
ghost use Rattle.mini_rows.specs.Past as reading;
ghost use Rattle.mini_steady.specs.Declarations as row;

use crate::bindings::is_binding;
use crate::code::push_name;
use mini_model::{Name, OutOfMemory, Shape, SymbolId, UnaryOperator, VariableDeclarationKind};
use mini_node::{Node, Nodes};

// What declares what its parts do.
fn lets_each(shape: &Shape) -> bool
    ensures { result ≡ row.is_each (row.lets_at shape.now) }
{
    matches!(
        shape,
        Shape::Listed
            | Shape::ObjectPattern
            | Shape::ArrayPattern
            | Shape::BindingProperty(_, _)
            | Shape::RestElement
            | Shape::SwitchCase
    )
}

// What declares what its first part does.
fn lets_first(shape: &Shape) -> bool
    ensures { result ≡ row.is_first (row.lets_at shape.now) }
{
    matches!(
        shape,
        Shape::UnaryExpression(UnaryOperator::LogicalNot)
            | Shape::AssignmentPattern
            | Shape::VariableDeclarator
            | Shape::VariableDeclaration(
                VariableDeclarationKind::Let | VariableDeclarationKind::Const
            )
            | Shape::Class(true)
            | Shape::ExportNamedDeclaration
    )
}

// What does so if that is a class.
fn lets_class(shape: &Shape) -> bool
    ensures { result ≡ row.is_of_class (row.lets_at shape.now) }
{
    matches!(shape, Shape::ExportDefaultDeclaration)
}

// A class that is declared.
fn is_class_shape(shape: &Shape) -> bool
    ensures { result ≡ row.is_class_shape shape.now }
{
    matches!(shape, Shape::Class(true))
}

/// A negation.
pub fn is_negation(shape: &Shape) -> bool
    ensures { result ≡ row.is_negation shape.now }
{
    matches!(shape, Shape::UnaryExpression(UnaryOperator::LogicalNot))
}

// Whether it is a class that is declared.
#[cycle(classes)]
#[tactic(auto, using(crate::proofs::Letting::opened_class))]
fn is_class(node: &Node) -> bool
    ensures { result ≡ row.is_class node.now }
{
    is_class_shape(node.shape()) || is_negation(node.shape()) && is_class_first(node.parts())
}

// Whether the first of these is one.
#[cycle(classes)]
fn is_class_first(nodes: &[Node]) -> bool
    ensures { result ≡ row.is_class_first (trees_of nodes.now) }
{
    match nodes {
        [first, ..] => is_class(first),
        [] => false,
    }
}

// Adds the symbols that a node declares in the scope around it.
#[cycle(lets)]
#[tactic(auto, using(crate::proofs::Letting::by_itself, crate::proofs::Letting::by_each, crate::proofs::Letting::by_first, crate::proofs::Letting::by_class, crate::proofs::Letting::by_nothing))]
pub fn push_lets(symbols: &mut Vec<SymbolId>, node: &Node) -> Result<(), OutOfMemory>
    ensures { OnOk result (symbols.new.items ≡ symbols.old.items ++ row.lets_in node.now) }
{
    if is_binding(node.shape()) {
        push_name(symbols, node.name())
    } else if lets_each(node.shape()) {
        push_all_lets(symbols, node.parts())
    } else if lets_first(node.shape()) {
        push_first_lets(symbols, node.parts())
    } else if lets_class(node.shape()) && is_class_first(node.parts()) {
        push_first_lets(symbols, node.parts())
    } else {
        Ok(())
    }
}

// Adds those that these nodes declare.
#[cycle(lets)]
fn push_all_lets(symbols: &mut Vec<SymbolId>, nodes: &[Node]) -> Result<(), OutOfMemory>
    ensures { OnOk result (symbols.new.items ≡ symbols.old.items ++ row.lets_among (trees_of nodes.now)) }
{
    for node in nodes {
        push_lets(symbols, node)?;
    }
    Ok(())
}

// Adds those that the first declares.
#[cycle(lets)]
fn push_first_lets(symbols: &mut Vec<SymbolId>, nodes: &[Node]) -> Result<(), OutOfMemory>
    ensures { OnOk result (symbols.new.items ≡ symbols.old.items ++ row.lets_first (trees_of nodes.now)) }
{
    match nodes {
        [first, ..] => push_lets(symbols, first),
        [] => Ok(()),
    }
}

// The symbol of a name is this one.
#[tactic(auto, using(crate::proofs::Letting::some_listed, crate::proofs::Letting::none_listed))]
fn has_symbol(symbol: SymbolId, name: &Option<Name>) -> bool
    ensures { result ≡ row.is_listed symbol.0 (row.symbols_of (names name.now)) }
{
    match name {
        Some(name) => match name.symbol {
            Some(own) => own.0 == symbol.0,
            None => false,
        },
        None => false,
    }
}

/// Whether a node declares a name with the symbol in the scope around it.
#[cycle(letting)]
#[tactic(auto, using(crate::proofs::Letting::listed_itself, crate::proofs::Letting::listed_each, crate::proofs::Letting::listed_first, crate::proofs::Letting::listed_class, crate::proofs::Letting::listed_nothing))]
pub fn is_let_in(symbol: SymbolId, node: &Node) -> bool
    ensures { result ≡ row.is_listed symbol.0 (row.lets_in node.now) }
{
    if is_binding(node.shape()) {
        has_symbol(symbol, node.name())
    } else if lets_each(node.shape()) {
        is_let_among(symbol, node.parts())
    } else if lets_first(node.shape()) {
        is_let_first(symbol, node.parts())
    } else if lets_class(node.shape()) && is_class_first(node.parts()) {
        is_let_first(symbol, node.parts())
    } else {
        false
    }
}

// Whether one of these nodes does.
#[cycle(letting)]
#[tactic(auto, using(crate::proofs::Letting::listed_more))]
fn is_let_among(symbol: SymbolId, nodes: &[Node]) -> bool
    ensures { result ≡ row.is_listed symbol.0 (row.lets_among (trees_of nodes.now)) }
{
    match nodes {
        [first, rest @ ..] => is_let_in(symbol, first) || is_let_among(symbol, rest),
        [] => false,
    }
}

// Whether the first does.
#[cycle(letting)]
fn is_let_first(symbol: SymbolId, nodes: &[Node]) -> bool
    ensures { result ≡ row.is_listed symbol.0 (row.lets_first (trees_of nodes.now)) }
{
    match nodes {
        [first, ..] => is_let_in(symbol, first),
        [] => false,
    }
}
