//! 77: `return a; class C { m() {} }` becomes `return a; let C;`, and so with a `let` or a `const`
//! that never runs.

ghost use Rattle.std.specs.Prelude.{◌≡◌, IfOk};
ghost use Rattle.mini_stmt.specs.JoinLets.{DropsLexicals};

use crate::rewrites::drop_unreached::{Going, drop_behind};
use mini_model::OutOfMemory;
use mini_node::{Node, is_listed};
use std::alloc::Global;

/// What would initialize a class, a `let` or a `const` after the first statement that ends in a
/// jump goes, and its names stay declared. The answer says whether there was one; the only error is
/// that memory runs out, and then the list is fit only to be dropped.
pub fn drop_lexicals(alloc: Global, node: &mut Node) -> Result<bool, OutOfMemory>
    ensures { IfOk result (DropsLexicals node.old node.new) }
{
    if !is_listed(node) {
        return Ok(false);
    }
    drop_behind(alloc, Going::Lexicals, node.children_mut())
}
