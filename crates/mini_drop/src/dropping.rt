//! A tree less the items of a set of symbols.

ghost use Rattle.std.specs.Prelude.{◌≡◌, ◌<◌, ◌+◌, IfOk};
ghost use Rattle.mini_model.specs.Tree.{count};
ghost use Rattle.mini_context.specs.Tables.{mark_at};
ghost use Rattle.mini_drop.specs.Asked.{role_in, spot_in};
ghost use Rattle.mini_drop.specs.Walk.{Lost, AllLost, LostAt};

use crate::items::items_of;
use crate::place::{Role, Spot, role_of, spot_below};
use mini_model::OutOfMemory;
use mini_node::{Node, Nodes, discard};

/// The sum of two numbers. Memory counts as run out where it is 2^32 or more.
pub fn sum(left: u32, right: u32) -> Result<u32, OutOfMemory>
    ensures { IfOk result (λ total. total ≡ left + right) }
{
    match left.checked_add(right) {
        Some(total) => Ok(total),
        None => Err(OutOfMemory),
    }
}

fn number(count: usize) -> Result<u32, OutOfMemory>
    ensures { IfOk result (λ number. number ≡ count) }
{
    match u32::try_from(count) {
        Ok(number) => Ok(number),
        Err(_) => Err(OutOfMemory),
    }
}

/// Takes the items of a set of symbols, and functions that are statements by themselves, out of a
/// node that stands there, and says how many went. The only error is that memory runs out, which it
/// counts as where there are 2^32 items, and then the node is fit only to be dropped.
#[cycle(dropping)]
pub fn drop_items(set: &[bool], spot: Spot, node: &mut Node) -> Result<u32, OutOfMemory>
    ensures { IfOk result (Lost (mark_at set.now) (spot_in spot) node.old node.new) }
{
    let role = role_of(node.shape(), spot);
    drop_below(set, role, node.children_mut())
}

// The last child first.
#[cycle(dropping)]
fn drop_below(set: &[bool], role: Role, nodes: &mut Nodes) -> Result<u32, OutOfMemory>
    ensures { IfOk result (AllLost (mark_at set.now) (role_in role) nodes.old nodes.new) }
{
    let count = nodes.len();
    let mut gone = 0;
    for passed in 0..count {
        let here = drop_at(set, role, nodes, count - 1 - passed)?;
        gone = sum(here, gone)?;
    }
    Ok(gone)
}

// The child at a place goes, or what goes of it.
#[cycle(dropping)]
fn drop_at(set: &[bool], role: Role, nodes: &mut Nodes, at: usize) -> Result<u32, OutOfMemory>
    requires { at < count nodes.old }
    ensures { IfOk result (LostAt (mark_at set.now) (role_in role) at nodes.old nodes.new) }
{
    let items = items_of(set, role, nodes.child(at));
    if items > 0 {
        discard(nodes.remove(at));
        return number(items);
    }
    drop_items(set, spot_below(role, at), nodes.child_mut(at))
}
