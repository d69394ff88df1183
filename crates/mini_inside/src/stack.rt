//! The nodes on the way, each without what the way goes into: a list, of which the last is the next
//! above.

ghost use Rattle.std.specs.Prelude.{◌≡◌, OnOk};
ghost use Rattle.mini_model.specs.Tree.{Tree};
ghost use Rattle.mini_inside.specs.Further.{pushed};

use mini_model::OutOfMemory;
use mini_node::{Node, discard, taken};
use std::alloc::Global;
use std::mem;

/// Moves the node to the end of the list.
pub fn push_above(alloc: Global, above: &mut Node, node: &mut Node) -> Result<(), OutOfMemory>
    ensures { OnOk result (above.new ≡ pushed above.old node.old) }
{
    let moved = taken(alloc, node);
    above.children_mut().push(moved)
}

/// Moves the last node of the list back to its place.
pub fn pop_above(above: &mut Node, node: &mut Node)
    ensures list { (a t : Tree) → above.old ≡ pushed a t → above.new ≡ a }
    ensures node { (a t : Tree) → above.old ≡ pushed a t → node.new ≡ t }
{
    if let Some(last) = above.children_mut().pop() {
        discard(mem::replace(node, last));
    }
}
