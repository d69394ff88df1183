//! The node to which a path leads, and what is made of it.

ghost use Rattle.std.specs.Prelude.{◌≡◌, [], ◌∷◌, Option, IfOk};
ghost use Rattle.mini_model.specs.Tree.{Tree, count};
ghost use Rattle.mini_model.specs.Paths.{Path, width, spread, is_node as is_it_a_node};
ghost use Rattle.mini_model.specs.declared.place.Position.{Position};
ghost use Rattle.mini_log.specs.Walk.{step_at as step_at_path, spot};
ghost use Rattle.mini_log.specs.declared.row.LogRow.{LogRow};
ghost use Rattle.mini_checker.specs.Made.{Made, beyond, index_in, step_below as step_below_tree};

use mini_log::row::LogRow;
use mini_model::{OutOfMemory, Position, Shape};
use mini_node::{Node, Nodes};
use mini_tree::child_place;
use std::alloc::Global;

/// The rows, each of which may make something of a node in its place, told the rest of the path on
/// which the node stands.
pub trait Making {
    /// The tree that a row makes of another in its place, if it makes any.
    ghost makes: { Self → LogRow → Position → Tree → Path → Option Tree };

    /// Makes it where the path ends, and says whether there was anything to make; else the node
    /// stays. The only error is that memory runs out, and then the node is fit only to be dropped.
    fn make(
        &self,
        alloc: Global,
        row: LogRow,
        node: &mut Node,
        place: Position,
    ) -> Result<bool, OutOfMemory>
        ensures { IfOk result (Made (makes self.now row place node.old []) node.old node.new) };

    /// Makes it where the path goes on with an index and others.
    fn make_above(
        &self,
        alloc: Global,
        row: LogRow,
        node: &mut Node,
        place: Position,
        index: u32,
        rest: &[u32],
    ) -> Result<bool, OutOfMemory>
        ensures { IfOk result (Made (makes self.now row place node.old (index ∷ rest.now)) node.old node.new) };
}

// Whether it is a node of ESTree, and neither absent nor what holds others.
fn is_node(node: &Node) -> bool
    ensures { result ≡ is_it_a_node node.now }
{
    !matches!(
        node.shape(),
        Shape::Absent | Shape::Listed | Shape::InnerExpression
    )
}

/// Which child holds the node of ESTree of an index, and which index that has in the child. Where
/// there are fewer nodes the first is the number of children, and the second by how much.
#[cycle(indices)]
pub fn find(nodes: &Nodes, index: u32) -> (usize, u32)
    ensures child { result.0 ≡ spot nodes.now index }
    ensures index { result.1 ≡ index_in nodes.now index }
{
    let mut left = index;
    for at in 0..nodes.len() {
        match pass(nodes.child(at), left) {
            Some(rest) => left = rest,
            None => return (at, left),
        }
    }
    (nodes.len(), left)
}

// The index less the nodes of ESTree that a child is; None where it is among them.
#[cycle(indices)]
fn pass(node: &Node, index: u32) -> Option<u32>
    ensures { result ≡ beyond (width node.now) index }
{
    match node.shape() {
        Shape::Absent => Some(index),
        Shape::Listed | Shape::InnerExpression => pass_all(node.children(), index),
        _ => index.checked_sub(1),
    }
}

#[cycle(indices)]
fn pass_all(nodes: &Nodes, index: u32) -> Option<u32>
    ensures { result ≡ beyond (count (spread nodes.now)) index }
{
    let (at, left) = find(nodes, index);
    if at < nodes.len() { None } else { Some(left) }
}

/// Makes it of the first node on a path from this one, which stands there, of which it makes
/// anything.
#[cycle(steps)]
pub fn step_at<M: Making>(
    making: &M,
    alloc: Global,
    row: LogRow,
    node: &mut Node,
    place: Position,
    path: &[u32],
) -> Result<bool, OutOfMemory>
    ensures { IfOk result (Made (step_at_path (M.makes making.now row) place node.old path.now) node.old node.new) }
{
    match path.split_first() {
        Some((index, rest)) => step_on(making, alloc, row, node, place, *index, rest),
        None => making.make(alloc, row, node, place),
    }
}

// The same where the path goes on with this index.
#[cycle(steps)]
fn step_on<M: Making>(
    making: &M,
    alloc: Global,
    row: LogRow,
    node: &mut Node,
    place: Position,
    index: u32,
    rest: &[u32],
) -> Result<bool, OutOfMemory>
    ensures { IfOk result (Made (step_at_path (M.makes making.now row) place node.old (index ∷ rest.now)) node.old node.new) }
{
    if making.make_above(alloc, row, node, place, index, rest)? {
        return Ok(true);
    }
    step_below(making, alloc, row, node, place, index, rest)
}

// The same below the node.
#[cycle(steps)]
fn step_below<M: Making>(
    making: &M,
    alloc: Global,
    row: LogRow,
    node: &mut Node,
    place: Position,
    index: u32,
    rest: &[u32],
) -> Result<bool, OutOfMemory>
    ensures { IfOk result (Made (step_below_tree (M.makes making.now row) place node.old index rest.now) node.old node.new) }
{
    let count = node.children().len();
    let (at, left) = find(node.children(), index);
    if at >= count {
        return Ok(false);
    }
    let stands = child_place(node.shape(), place, count, at);
    let child = node.children_mut().child_mut(at);
    if is_node(child) {
        step_at(making, alloc, row, child, stands, rest)
    } else {
        step_on(making, alloc, row, child, stands, left, rest)
    }
}
