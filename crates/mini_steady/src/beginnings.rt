//! What begins behind a child of a node, and has its value at all that follow in it.

ghost use Rattle.std.specs.Prelude.{◌≡◌, ◌<◌, OnOk};
ghost use Rattle.mini_model.specs.Tree.{children, count};
ghost use Rattle.mini_node.specs.Children.{trees_of};
ghost use Rattle.mini_rows.specs.Steady.{beginning, enters_lexical as enters_it_lexical};
ghost use Rattle.mini_steady.specs.Declarations as row;
ghost use Rattle.mini_steady.specs.Own.{BeginsBesides};

use crate::code::{BodyCode, push_begun};
use crate::lets::is_negation;
use mini_model::{OutOfMemory, Position, Shape, VariableDeclarationKind};
use mini_node::Node;

// A list of statements.
fn is_statement_list(shape: &Shape, place: Position) -> bool
    ensures { result ≡ row.is_statement_list shape.now place }
{
    matches!(shape, Shape::Listed) && matches!(place, Position::StatementList | Position::BodyList)
}

// Where a declaration is a statement, the head of a `for`, or exported, if the node stands in an
// export.
fn may_begin(place: Position, in_lexical: bool) -> bool
    ensures { result ≡ row.may_begin in_lexical place }
{
    match place {
        Position::Stmt(_) => true,
        Position::Expr(seat) => seat.unused,
        Position::Elsewhere => in_lexical,
        _ => false,
    }
}

// A list of other parts with commas between them.
fn is_comma_list(shape: &Shape, place: Position) -> bool
    ensures { result ≡ row.is_comma_list shape.now place }
{
    matches!(shape, Shape::Listed) && matches!(place, Position::CommaList)
}

// A `catch`.
fn is_catch(shape: &Shape) -> bool
    ensures { result ≡ row.is_catch shape.now }
{
    matches!(shape, Shape::CatchClause)
}

// A `for`.
fn is_for(shape: &Shape) -> bool
    ensures { result ≡ row.is_for shape.now }
{
    matches!(shape, Shape::ForStatement)
}

// A `for..in` or a `for..of`.
fn is_for_each(shape: &Shape) -> bool
    ensures { result ≡ row.is_for_each shape.now }
{
    matches!(shape, Shape::ForInStatement | Shape::ForOfStatement)
}

// Whether what the child declares begins behind it.
#[tactic(auto, using(crate::proofs::Behind::of_child))]
fn begins_child(shape: &Shape, place: Position, at: usize, in_lexical: bool) -> bool
    ensures { result ≡ row.is_of_child (beginning in_lexical shape.now place at) }
{
    is_statement_list(shape, place)
        || (is_comma_list(shape, place) && in_lexical || is_catch(shape) && at == 0)
}

// Whether what the head of a loop declares begins behind it.
#[tactic(auto, using(crate::proofs::Behind::of_head))]
fn begins_head(shape: &Shape, place: Position, at: usize, in_lexical: bool) -> bool
    ensures { result ≡ row.is_of_head (beginning in_lexical shape.now place at) }
{
    is_for(shape) && at == 0 || is_for_each(shape) && at == 1
}

/// Whether the children of a node are the list of a `let` or a `const`, or stand in an export; and
/// the node itself may.
#[tactic(auto, using(crate::proofs::Behind::enters_it))]
pub fn enters_lexical(shape: &Shape, place: Position, in_lexical: bool) -> bool
    ensures { result ≡ enters_it_lexical in_lexical shape.now place }
{
    is_export(shape) || is_lexical_shape(shape) && may_begin(place, in_lexical)
}

// An export of a declaration, or of names.
fn is_export(shape: &Shape) -> bool
    ensures { result ≡ row.is_export shape.now }
{
    matches!(shape, Shape::ExportNamedDeclaration)
}

// A `let` or a `const`.
fn is_lexical_shape(shape: &Shape) -> bool
    ensures { result ≡ row.is_lexical_shape shape.now }
{
    matches!(
        shape,
        Shape::VariableDeclaration(VariableDeclarationKind::Let | VariableDeclarationKind::Const)
    )
}

/// Whether the node is a `let` or a `const`.
#[cycle(heads)]
#[tactic(auto, using(crate::proofs::Behind::opened_lexical))]
pub fn is_lexical(node: &Node) -> bool
    ensures { result ≡ row.is_lexical node.now }
{
    is_lexical_shape(node.shape()) || is_negation(node.shape()) && is_lexical_first(node.parts())
}

// Whether the first of these is one.
#[cycle(heads)]
fn is_lexical_first(nodes: &[Node]) -> bool
    ensures { result ≡ row.is_lexical_first (trees_of nodes.now) }
{
    match nodes {
        [first, ..] => is_lexical(first),
        [] => false,
    }
}

/// Adds to what is begun in this code what begins behind the child at an index of a node, which may
/// be the list of a `let` or a `const`.
pub fn push_behind(
    code: &mut BodyCode,
    node: &Node,
    place: Position,
    at: usize,
    in_lexical: bool,
) -> Result<(), OutOfMemory>
    requires { at < count (children node.now) }
    ensures { OnOk result (BeginsBesides (row.begin_in in_lexical place node.now at) code.old code.new) }
{
    if begins_child(node.shape(), place, at, in_lexical) {
        push_begun(code, true, node.child(at))
    } else if begins_head(node.shape(), place, at, in_lexical) {
        let head = node.child(0);
        push_begun(code, is_lexical(head), head)
    } else {
        Ok(())
    }
}
