//! Row 19: a template without expressions becomes its text, which is lighter in every seat.

ghost use Rattle.std.specs.Prelude.{◌≡◌, is_some, unwrap_or, OnOk, IfOk};
ghost use Rattle.mini_model.specs.Tree.{shape_of};
ghost use Rattle.mini_syntax.specs.SubstituteTemplateLiteral.{piece_text as text_of_piece, written};

use crate::forms::is_text_template;
use mini_model::{OutOfMemory, Shape, Text};
use mini_node::{Node, string_literal};
use std::alloc::Global;

// The text with these units.
fn copied(alloc: Global, units: &[u16]) -> Result<Text, OutOfMemory>
    ensures { IfOk result (λ copy. copy ≡ units.now) }
{
    let mut copy = Text::new(alloc);
    for unit in units {
        copy.push(*unit)?;
    }
    Ok(copy)
}

// The text of a template's one piece, where it is no longer than what is written there.
fn piece_text(alloc: Global, piece: &Node) -> Result<Option<Node>, OutOfMemory>
    ensures { IfOk result (λ w. w ≡ text_of_piece (shape_of piece.now)) }
{
    match piece.shape() {
        Shape::TemplateElement(_, raw, Some(content)) if content.text().len() <= raw.text().len() =>
            {
                let text = copied(alloc, content.text().as_slice())?;
                Ok(Some(string_literal(alloc, text)))
            }
        _ => Ok(None),
    }
}

// What is written for an expression.
fn text_of(alloc: Global, node: &Node) -> Result<Option<Node>, OutOfMemory>
    ensures { IfOk result (λ w. w ≡ written node.now) }
{
    if !is_text_template(node) {
        return Ok(None);
    }
    piece_text(alloc, node.child(0).child(0))
}

/// A template without expressions becomes its text, as abc in backticks becomes `"abc"`. The answer
/// says whether it did; the only error is that memory runs out.
pub fn substitute_template_literal(alloc: Global, node: &mut Node) -> Result<bool, OutOfMemory>
    ensures tree { OnOk result (node.new ≡ unwrap_or (written node.old) node.old) }
    ensures said { IfOk result (λ changed. changed ≡ is_some (written node.old)) }
{
    match text_of(alloc, node)? {
        Some(text) => {
            *node = text;
            Ok(true)
        }
        None => Ok(false),
    }
}
