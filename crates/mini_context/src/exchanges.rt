//! The names that a module imports and exports.

ghost use Rattle.std.specs.Prelude.{◌≡◌, true};
ghost use Rattle.mini_model.specs.Tree.{shape_of};
ghost use Rattle.mini_laws.specs.declared.names.Declared.TheVariants as declared;
ghost use Rattle.mini_laws.specs.DeclaredNames.{own_names, names_of};
ghost use Rattle.mini_context.specs.Tables.{Marked};
ghost use Rattle.mini_context.specs.Visits.{exchange_of as exchange_in, exchanged_by};

use crate::marks::{mark_names, mark_own_name};
use mini_laws::Declared;
use mini_model::Shape;
use mini_node::Node;

/// Which of a node's names a module imports or exports.
#[derive(Clone, Copy)]
pub enum Exchange {
    /// The lexical names that it declares in its block.
    Lexical,
    /// The lexical names that it declares in its block, and those that it declares by `var`.
    Declared,
    /// The node's own name.
    Own,
    /// None of its names.
    Nothing,
}

fn exchange_of(shape: &Shape) -> Exchange
    ensures { result ≡ exchange_in shape.now }
{
    match shape {
        Shape::ImportDeclaration | Shape::ExportDefaultDeclaration => Exchange::Lexical,
        Shape::ExportNamedDeclaration => Exchange::Declared,
        Shape::Identifier => Exchange::Own,
        _ => Exchange::Nothing,
    }
}

fn mark_by(marks: &mut Vec<bool>, exchange: Exchange, node: &Node)
    ensures { Marked (exchanged_by true exchange (own_names node.now) (names_of declared.Lexical node.now) (names_of declared.Hoisted node.now)) marks.old.items marks.new.items }
{
    match exchange {
        Exchange::Lexical => mark_names(marks, Declared::Lexical, node),
        Exchange::Declared => {
            mark_names(marks, Declared::Lexical, node);
            mark_names(marks, Declared::Hoisted, node);
        }
        Exchange::Own => mark_own_name(marks, node),
        Exchange::Nothing => {}
    }
}

/// Marks the names that a module imports or exports by a node, where `exchanges` says that the node
/// stands so that it may.
pub fn mark_exchanged(marks: &mut Vec<bool>, exchanges: bool, node: &Node)
    ensures { Marked (exchanged_by exchanges (exchange_in (shape_of node.now)) (own_names node.now) (names_of declared.Lexical node.now) (names_of declared.Hoisted node.now)) marks.old.items marks.new.items }
{
    if exchanges {
        mark_by(marks, exchange_of(node.shape()), node);
    }
}
