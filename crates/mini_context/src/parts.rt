//! Which of the names of a node's children a definition speaks of.

ghost use Rattle.std.specs.Prelude.{◌≡◌};
ghost use Rattle.mini_context.specs.Parts.{fixed_part as fixed_part_of, lexical_part as lexical_part_of, names_at, pattern_part as pattern_part_of, switched_part as switched_part_of};
ghost use Rattle.mini_context.specs.Tables.{Marked};

use crate::marks::{mark_all_names, mark_names};
use mini_laws::Declared;
use mini_model::{Shape, VariableDeclarationKind};
use mini_node::Nodes;

/// Which of the names that a node's children bind or declare are meant.
#[derive(Clone, Copy)]
pub enum Part {
    /// The names of a kind that its children declare.
    Every(Declared),
    /// The names that its child at an index binds.
    At(usize),
    /// None of them.
    Nothing,
}

/// Marks the names of that part of a node's children.
pub fn mark_part(marks: &mut Vec<bool>, part: Part, nodes: &Nodes)
    ensures { Marked (names_at part nodes.now) marks.old.items marks.new.items }
{
    match part {
        Part::Every(declared) => mark_all_names(marks, declared, nodes),
        Part::At(at) => {
            if let Some(child) = nodes.get(at) {
                mark_names(marks, Declared::Bound, child);
            }
        }
        Part::Nothing => {}
    }
}

/// Where a node of this shape has names that can't be written.
pub fn fixed_part(shape: &Shape) -> Part
    ensures { result ≡ fixed_part_of shape.now }
{
    match shape {
        Shape::VariableDeclaration(VariableDeclarationKind::Const) | Shape::ImportDeclaration => {
            Part::Every(Declared::Bound)
        }
        Shape::Function(false, ..) | Shape::Class(false) => Part::At(0),
        Shape::Class(true) => Part::At(3),
        _ => Part::Nothing,
    }
}

/// Where a node of this shape and this number binds names as a pattern does.
pub fn pattern_part(shape: &Shape, number: u32) -> Part
    ensures { result ≡ pattern_part_of shape.now number }
{
    match shape {
        Shape::ObjectPattern | Shape::ArrayPattern => Part::Every(Declared::Bound),
        Shape::AssignmentPattern if number > 0 => Part::Every(Declared::Bound),
        _ => Part::Nothing,
    }
}

/// Where a node of this shape has the lexical names of a `switch`.
pub fn switched_part(shape: &Shape) -> Part
    ensures { result ≡ switched_part_of shape.now }
{
    match shape {
        Shape::SwitchStatement => Part::Every(Declared::Lexical),
        _ => Part::Nothing,
    }
}

/// Where a node of this shape has lexical names, directly in the body of a script or a function, or
/// elsewhere; classes aside.
pub fn lexical_part(in_body: bool, shape: &Shape) -> Part
    ensures { result ≡ lexical_part_of in_body shape.now }
{
    match shape {
        Shape::VariableDeclaration(VariableDeclarationKind::Var) => Part::Nothing,
        Shape::VariableDeclaration(_) | Shape::ImportDeclaration => Part::Every(Declared::Bound),
        Shape::Function(true, ..) if in_body => Part::Nothing,
        Shape::Function(..) | Shape::CatchClause => Part::At(0),
        _ => Part::Nothing,
    }
}
