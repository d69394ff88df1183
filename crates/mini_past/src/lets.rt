//! Names that a `let` or a `const` has initialised by the time that a declarator is run.

ghost use Rattle.std.specs.Prelude.{◌≡◌, ◌<◌, ◌≤◌};
ghost use Rattle.mini_model.specs.Tree.{count};
ghost use Rattle.mini_node.specs.Children.{first_children, names};
ghost use Rattle.mini_rows.specs.Past as reading;
ghost use Rattle.mini_unused.specs.RemoveUnusedDeclaration.{is_free_at};

use mini_model::{Name, Shape, SymbolId};
use mini_node::{Node, Nodes};
use mini_steady::binds;
use mini_unused::{declares_list, is_childless, is_declarator, is_lexical};

fn is_symbol(symbol: SymbolId, other: Option<SymbolId>) -> bool
    ensures { result ≡ reading.is_symbol symbol.0 other }
{
    match other {
        Some(other) => other.0 == symbol.0,
        None => false,
    }
}

fn is_only_symbol(symbol: SymbolId, name: &Option<Name>) -> bool
    ensures { result ≡ reading.is_only_symbol symbol.0 (names name.now) }
{
    match name {
        Some(name) => is_symbol(symbol, name.symbol),
        None => false,
    }
}

fn is_binding(shape: &Shape) -> bool
    ensures { result ≡ reading.is_binding shape.now }
{
    matches!(shape, Shape::BindingIdentifier)
}

fn is_name(symbol: SymbolId, node: &Node) -> bool
    ensures { result ≡ reading.is_name symbol.0 node.now }
{
    is_binding(node.shape()) && is_only_symbol(symbol, node.name()) && is_childless(node)
}

// `y = v`, where v doesn't declare the name.
fn is_let_name(symbol: SymbolId, declarator: &Node) -> bool
    ensures { result ≡ reading.is_let_name symbol.0 declarator.now }
{
    is_declarator(declarator)
        && is_name(symbol, declarator.child(0))
        && !binds(symbol, declarator.child(1))
}

// A declarator is such a one, of a `let` or a `const`, or doesn't declare the name.
fn lets_at_most(is_lexical: bool, symbol: SymbolId, declarator: &Node) -> bool
    ensures { result ≡ reading.lets_at_most is_lexical symbol.0 declarator.now }
{
    !binds(symbol, declarator) || (is_lexical && is_let_name(symbol, declarator))
}

// Each declarator before an index is such a one of a `let` or a `const`, or doesn't declare the
// name.
fn all_let(is_lexical: bool, symbol: SymbolId, declarators: &Nodes, end: usize) -> bool
    requires { end ≤ count declarators.now }
    ensures { result ≡ reading.all_of (reading.lets_at_most is_lexical symbol.0) (first_children end declarators.now) }
{
    for at in 0..end {
        if !lets_at_most(is_lexical, symbol, declarators.child(at)) {
            return false;
        }
    }
    true
}

// A statement doesn't declare the name, or is a `let` or a `const` that gives it its value:
// `const a, y = v;`.
fn lets_here(symbol: SymbolId, statement: &Node) -> bool
    ensures { result ≡ reading.lets_here symbol.0 statement.now }
{
    if !binds(symbol, statement) {
        return true;
    }
    if !declares_list(statement) {
        return false;
    }
    let declarators = statement.child(0).children();
    let end = declarators.len();
    all_let(is_lexical(statement.shape()), symbol, declarators, end)
}

// All before an index.
fn all_here(symbol: SymbolId, statements: &Nodes, end: usize) -> bool
    requires { end ≤ count statements.now }
    ensures { result ≡ reading.all_of (reading.lets_here symbol.0) (first_children end statements.now) }
{
    for at in 0..end {
        if !lets_here(symbol, statements.child(at)) {
            return false;
        }
    }
    true
}

// None before an index declares it.
fn all_spare(symbol: SymbolId, nodes: &Nodes, end: usize) -> bool
    requires { end ≤ count nodes.now }
    ensures { result ≡ reading.all_of (reading.spares symbol.0) (first_children end nodes.now) }
{
    for at in 0..end {
        if binds(symbol, nodes.child(at)) {
            return false;
        }
    }
    true
}

// The statement at the place is a `let` or a `const`.
fn is_free(statements: &Nodes, at: usize) -> bool
    requires { at < count statements.now }
    ensures { result ≡ is_free_at statements.now at }
{
    is_lexical(statements.child(at).shape())
}

/// Whether a statement before the one at the place, or a declarator before the other place in that,
/// has initialised the name, and no scope in them hides it.
pub fn is_let(
    symbol: SymbolId,
    statements: &Nodes,
    at: usize,
    declarators: &Nodes,
    which: usize,
) -> bool
    requires statement { at < count statements.now }
    requires declarator { which < count declarators.now }
    ensures { result ≡ reading.is_let symbol.0 (first_children at statements.now) (is_free_at statements.now at) (first_children which declarators.now) }
{
    !(all_spare(symbol, statements, at) && all_spare(symbol, declarators, which))
        && (all_here(symbol, statements, at)
            && all_let(is_free(statements, at), symbol, declarators, which))
}
