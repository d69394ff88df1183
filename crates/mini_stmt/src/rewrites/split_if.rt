//! 76: `if (a) s; else u` becomes `if (a) s; u`, where s ends in a jump.

ghost use Rattle.std.specs.Prelude.{◌≡◌, IfOk};
ghost use Rattle.mini_node.specs.Children.{part};
ghost use Rattle.mini_stmt.specs.SplitIf as row;

use crate::terms::{is_terminated, statement_cares_about_scope};
use mini_model::OutOfMemory;
use mini_node::{Node, absent, if_statement, is_if_statement, three};
use std::alloc::Global;

/// `if (a) s; else u`
pub fn splits(node: &Node) -> bool
    ensures { result ≡ row.splits node.now }
{
    is_if_statement(node)
        && is_terminated(node.child(1))
        && !statement_cares_about_scope(node.child(2))
}

/// `if (a) s`, and u
pub fn split(alloc: Global, node: Node) -> Result<(Node, Node), OutOfMemory>
    ensures first { IfOk result (λ made. made.0 ≡ row.without_alternate node) }
    ensures second { IfOk result (λ made. made.1 ≡ part node 2) }
{
    let (test, consequent, alternate) = three(node);
    let first = if_statement(alloc, test, consequent, absent(alloc))?;
    Ok((first, alternate))
}
