//! 79: `{ a; b; }` becomes `a; b;`.

ghost use Rattle.std.specs.Prelude.{◌≡◌};
ghost use Rattle.mini_stmt.specs.SpreadBlock as row;

use crate::terms::are_unscoped;
use mini_node::{Node, Nodes, is_block, one};

/// `{ a; b; }`
pub fn spreads(node: &Node) -> bool
    ensures { result ≡ row.spreads node.now }
{
    is_block(node) && are_unscoped(node.child(0).children())
}

/// The statements of a block.
pub fn body_of(node: Node) -> Nodes
    ensures { result ≡ row.body_of node }
{
    one(node).into_children()
}
