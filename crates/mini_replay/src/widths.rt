//! How many nodes of ESTree a node is among the children of the one above it.

ghost use Rattle.std.specs.Prelude.{◌≡◌, ◌+◌, IfOk};
ghost use Rattle.mini_model.specs.Tree.{count};
ghost use Rattle.mini_model.specs.Paths.{width, spread};

use mini_model::{OutOfMemory, Shape};
use mini_node::{Node, Nodes};

/// The sum of two numbers. Memory counts as run out where it is 2^32 or more.
pub fn sum(left: u32, right: u32) -> Result<u32, OutOfMemory>
    ensures { IfOk result (λ total. total ≡ left + right) }
{
    match left.checked_add(right) {
        Some(total) => Ok(total),
        None => Err(OutOfMemory),
    }
}

/// The number of a node: 1, but for what stands for those that it holds, and for an absent part.
#[cycle(widths)]
pub fn width_of(node: &Node) -> Result<u32, OutOfMemory>
    ensures { IfOk result (λ number. number ≡ width node.now) }
{
    match node.shape() {
        Shape::Absent => Ok(0),
        Shape::Listed | Shape::InnerExpression => widths_of(node.children()),
        _ => Ok(1),
    }
}

/// The number of some nodes together.
#[cycle(widths)]
pub fn widths_of(nodes: &Nodes) -> Result<u32, OutOfMemory>
    ensures { IfOk result (λ number. number ≡ count (spread nodes.now)) }
{
    let mut total = 0;
    for at in 0..nodes.len() {
        let width = width_of(nodes.child(at))?;
        total = sum(total, width)?;
    }
    Ok(total)
}
