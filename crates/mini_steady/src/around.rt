//! What is declared before a place, with its value there, by the nodes above it, each without what
//! the way goes into.

ghost use Rattle.std.specs.Prelude.{◌≡◌, []};
ghost use Rattle.mini_laws.specs.Naming.{lets_first as first_lets, summaries};
ghost use Rattle.mini_laws.specs.Value.{Declared, choose, is_in};
ghost use Rattle.mini_model.specs.Tree.{children, is_absent_shape, shape_of};
ghost use Rattle.mini_node.specs.Children.{trees_of};
ghost use Rattle.mini_rows.specs.PastInside as reading;
ghost use Rattle.mini_rows.specs.Steady.{head_lets};

use crate::beginnings::is_lexical;
use crate::lets::is_let_in;
use mini_model::{Shape, SymbolId};
use mini_node::Node;

// What isn't there.
fn is_absent(shape: &Shape) -> bool
    ensures { result ≡ is_absent_shape shape.now }
{
    matches!(shape, Shape::Absent)
}

// What holds a list of statements.
fn holds_statements(shape: &Shape) -> bool
    ensures { result ≡ reading.holds_statements shape.now }
{
    matches!(shape, Shape::BlockStatement | Shape::SwitchCase)
}

// Whether a statement before the place declares a name with the symbol.
#[tactic(auto, using(crate::proofs::AroundPlaces::before_more))]
fn is_let_before(symbol: SymbolId, nodes: &[Node]) -> bool
    ensures { result ≡ is_in (Declared symbol.0) (reading.lets_before (trees_of nodes.now)) }
{
    match nodes {
        [first, rest @ ..] => {
            !is_absent(first.shape()) && (is_let_in(symbol, first) || is_let_before(symbol, rest))
        }
        [] => false,
    }
}

// Whether the parameter of a `catch` does.
#[tactic(auto, using(crate::proofs::AroundPlaces::first_told))]
fn is_let_caught(symbol: SymbolId, nodes: &[Node]) -> bool
    ensures { result ≡ is_in (Declared symbol.0) (first_lets (summaries (trees_of nodes.now))) }
{
    match nodes {
        [first, ..] => is_let_in(symbol, first),
        [] => false,
    }
}

// Whether the head of a loop does, as a `let` or a `const`.
#[tactic(auto, using(crate::proofs::AroundPlaces::head_told))]
fn is_let_in_head(symbol: SymbolId, nodes: &[Node]) -> bool
    ensures { result ≡ is_in (Declared symbol.0) (head_lets (summaries (trees_of nodes.now))) }
{
    match nodes {
        [first, ..] => is_lexical(first) && is_let_in(symbol, first),
        [] => false,
    }
}

// Whether a statement of a list of statements does.
#[tactic(auto, using(crate::proofs::AroundPlaces::in_list))]
fn is_let_in_list(symbol: SymbolId, is_list: bool, nodes: &[Node]) -> bool
    ensures { result ≡ is_in (Declared symbol.0) (choose is_list (reading.lets_before (trees_of nodes.now)) []) }
{
    is_list && is_let_before(symbol, nodes)
}

// Whether a node of such a shape does so before the place in it.
#[tactic(auto, using(crate::proofs::AroundPlaces::in_none))]
fn is_let_by(symbol: SymbolId, is_list: bool, shape: &Shape, nodes: &[Node]) -> bool
    ensures { result ≡ is_in (Declared symbol.0) (reading.lets_around is_list shape.now (trees_of nodes.now)) }
{
    match shape {
        Shape::Listed => is_let_in_list(symbol, is_list, nodes),
        Shape::CatchClause => is_let_caught(symbol, nodes),
        Shape::ForStatement | Shape::ForInStatement | Shape::ForOfStatement => {
            is_let_in_head(symbol, nodes)
        }
        _ => false,
    }
}

fn is_let_at(symbol: SymbolId, is_list: bool, node: &Node) -> bool
    ensures { result ≡ is_in (Declared symbol.0) (reading.lets_around is_list (shape_of node.now) (children node.now)) }
{
    is_let_by(symbol, is_list, node.shape(), node.parts())
}

/// Whether one of these nodes, each below the one before, declares a name with the symbol before
/// the place in it, with its value there. The first of them may be a list of statements.
#[tactic(auto, using(crate::proofs::AroundPlaces::around_more))]
pub fn is_let_around(symbol: SymbolId, is_list: bool, nodes: &[Node]) -> bool
    ensures { result ≡ reading.is_let_around symbol.0 is_list (trees_of nodes.now) }
{
    match nodes {
        [first, rest @ ..] => {
            is_let_at(symbol, is_list, first)
                || is_let_around(symbol, holds_statements(first.shape()), rest)
        }
        [] => false,
    }
}
