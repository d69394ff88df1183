//! The walk over what stands further inside a list of statements, with what is done at the ends of
//! its ways.

ghost use Rattle.std.specs.Prelude.{◌≡◌, ◌<◌, true, IfOk, OnOk};
ghost use Rattle.mini_model.specs.Tree.{children, count};
ghost use Rattle.mini_node.specs.Children.{is_nameless};
ghost use Rattle.mini_node.specs.Kinds.{is_listed as is_it_listed};
ghost use Rattle.mini_inside.specs.Further.{BelowWalked, WalkedAt, ChildWalked, Walked};

use crate::ends::EndRewrites;
use crate::stack::{pop_above, push_above};
use crate::ways::way_in;
use mini_model::OutOfMemory;
use mini_node::Node;
use mini_rows::Way;
use mini_unused::{put_child, take_child};
use std::alloc::Global;

// In what stands at a place on the way, and further inside.
#[cycle(inside)]
fn remove_in<E: EndRewrites>(
    alloc: Global,
    above: &mut Node,
    way: Way,
    node: &mut Node,
    ends: &E,
) -> Result<bool, OutOfMemory>
    requires { is_it_listed above.old ≡ true }
    ensures walked { IfOk result (λ changed. Walked (E.ends ends.now) (children above.old) way node.old node.new changed) }
    ensures back { OnOk result (above.new ≡ above.old) }
{
    let below = remove_below(alloc, above, way, node, ends)?;
    let here = ends.rewrite_end(alloc, above, way, node)?;
    Ok(below | here)
}

/// Makes what is done at the ends of the ways in a node on the way to `var`s further inside, with
/// the nodes above it, each without what the way goes into. The answer says whether anything was
/// done; the only error is that memory runs out, and then the nodes are fit only to be dropped.
#[cycle(inside)]
pub fn remove_below<E: EndRewrites>(
    alloc: Global,
    above: &mut Node,
    way: Way,
    node: &mut Node,
    ends: &E,
) -> Result<bool, OutOfMemory>
    requires { is_it_listed above.old ≡ true }
    ensures walked { IfOk result (λ changed. BelowWalked (E.ends ends.now) (children above.old) way node.old node.new changed) }
    ensures back { OnOk result (above.new ≡ above.old) }
{
    if !node.is_nameless() {
        return Ok(false);
    }
    let count = node.children().len();
    let mut changed = false;
    for at in 0..count {
        let part = remove_at(alloc, above, way, node, at, ends)?;
        changed = changed | part;
    }
    Ok(changed)
}

// In the child at the index, where the way goes into it.
#[cycle(inside)]
fn remove_at<E: EndRewrites>(
    alloc: Global,
    above: &mut Node,
    way: Way,
    node: &mut Node,
    at: usize,
    ends: &E,
) -> Result<bool, OutOfMemory>
    requires child { at < count (children node.old) }
    requires bare { is_nameless node.old ≡ true }
    requires list { is_it_listed above.old ≡ true }
    ensures walked { IfOk result (λ changed. WalkedAt (E.ends ends.now) (children above.old) way node.old at node.new changed) }
    ensures back { OnOk result (above.new ≡ above.old) }
{
    match way_in(way, node.shape(), at) {
        Some(next) => remove_in_child(alloc, above, next, node, at, ends),
        None => Ok(false),
    }
}

// It is taken out meanwhile, and the node stands among those above.
#[cycle(inside)]
fn remove_in_child<E: EndRewrites>(
    alloc: Global,
    above: &mut Node,
    next: Way,
    node: &mut Node,
    at: usize,
    ends: &E,
) -> Result<bool, OutOfMemory>
    requires child { at < count (children node.old) }
    requires list { is_it_listed above.old ≡ true }
    ensures walked { IfOk result (λ changed. ChildWalked (E.ends ends.now) (children above.old) next node.old at node.new changed) }
    ensures back { OnOk result (above.new ≡ above.old) }
{
    let mut child = take_child(node, at);
    push_above(alloc, above, node)?;
    let changed = remove_in(alloc, above, next, &mut child, ends)?;
    pop_above(above, node);
    put_child(node, at, child);
    Ok(changed)
}
