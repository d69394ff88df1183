//! One call at the node to which a path leads.

ghost use Rattle.std.specs.Prelude.{◌≡◌, ◌∷◌, true, IfOk};
ghost use Rattle.mini_model.specs.Paths.{is_node as is_it_a_node};
ghost use Rattle.mini_steps.specs.Rows.{is_list_place, rows_in};
ghost use Rattle.mini_steps.specs.Steps.{AtPath};

use crate::calling::call;
use crate::names::RuleName;
use mini_checker::find;
use mini_context::TraverseCtx;
use mini_model::{OutOfMemory, Position, Shape};
use mini_node::Node;
use mini_tree::child_place;
use std::alloc::Global;

// Whether it is a node of ESTree, and neither absent nor what holds others.
fn is_node(node: &Node) -> bool
    ensures { result ≡ is_it_a_node node.now }
{
    !matches!(
        node.shape(),
        Shape::Absent | Shape::Listed | Shape::InnerExpression
    )
}

/// Does a rewrite of the node to which a path leads from this one, which stands there, and says
/// whether it changed something. The only error is that memory runs out.
#[cycle(steps)]
pub fn step_at(
    alloc: Global,
    rule: RuleName,
    node: &mut Node,
    place: Position,
    path: &[u32],
    context: &TraverseCtx,
) -> Result<bool, OutOfMemory>
    requires { is_list_place place ≡ true → is_it_a_node node.old ≡ true }
    ensures { IfOk result (AtPath (rows_in context.now rule) path.now place node.old node.new) }
{
    match path.split_first() {
        Some((index, rest)) => step_below(alloc, rule, node, place, *index, rest, context),
        None => call(alloc, rule, node, place, context),
    }
}

// The same below the node, where the path goes on with this index.
#[cycle(steps)]
fn step_below(
    alloc: Global,
    rule: RuleName,
    node: &mut Node,
    place: Position,
    index: u32,
    rest: &[u32],
    context: &TraverseCtx,
) -> Result<bool, OutOfMemory>
    ensures { IfOk result (AtPath (rows_in context.now rule) (index ∷ rest.now) place node.old node.new) }
{
    let count = node.children().len();
    let (at, left) = find(node.children(), index);
    if at >= count {
        return Ok(false);
    }
    let stands = child_place(node.shape(), place, count, at);
    let child = node.children_mut().child_mut(at);
    if is_node(child) {
        step_at(alloc, rule, child, stands, rest, context)
    } else {
        step_below(alloc, rule, child, stands, left, rest, context)
    }
}
