//! The call of a list of statements, of the node that holds it.

ghost use Rattle.std.specs.Prelude.{◌≡◌, IfOk};
ghost use Rattle.mini_stmt.specs.MinimizeStatements.{switches_of};
ghost use Rattle.mini_steps.specs.ListCalled.{ListCalled};
ghost use Rattle.mini_steps.specs.Rows.{list_index as index_of_list};

use mini_calls::PeepholeOptimizations;
use mini_model::{OutOfMemory, Shape};
use mini_node::Node;
use mini_tree::CompressOptions;
use std::alloc::Global;

const CALLS: PeepholeOptimizations = PeepholeOptimizations;

// Which child of a node of this shape is the list of its statements.
fn list_index(shape: &Shape) -> Option<usize>
    ensures { result ≡ index_of_list shape.now }
{
    match shape {
        Shape::Program(_, _) | Shape::BlockStatement | Shape::StaticBlock => Some(0),
        Shape::SwitchCase => Some(1),
        _ => None,
    }
}

/// Does `minimize_statements` of the list that a program, a block, a static block or a case of a
/// `switch` holds; nothing where the node holds none. The only error is that memory runs out.
pub fn call_on_list(
    alloc: Global,
    node: &mut Node,
    options: CompressOptions,
) -> Result<bool, OutOfMemory>
    ensures { IfOk result (ListCalled (switches_of options) node.old node.new) }
{
    let count = node.children().len();
    let Some(at) = list_index(node.shape()) else {
        return Ok(false);
    };
    if at >= count {
        return Ok(false);
    }
    let list = node.children_mut().child_mut(at);
    CALLS.minimize_statements(alloc, options, list)
}
