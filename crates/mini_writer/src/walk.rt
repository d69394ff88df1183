// From node to node.

ghost use Rattle.std.specs.Prelude.{◌≡◌, IfOk};
ghost use Rattle.serde_json.specs.View.{view, items_view};
ghost use Rattle.mini_node.specs.Children.{names};
ghost use Rattle.mini_writer.specs.Written.{tree_data, node_data};

use crate::objects::row_value;
use crate::rows::row_for;
use crate::special::special_value;
use mini_model::{Name, Shape};
use mini_node::Node;
use serde_json::Value;
use std::alloc::{AllocError, Global};

// What is written for a node, of what is written for its children.
#[tactic(auto, using(crate::proofs::Table::row_written, crate::proofs::Table::special_written))]
fn node_value(
    alloc: Global,
    shape: &Shape,
    name: &Option<Name>,
    below: Vec<Value>,
) -> Result<Value, AllocError>
    ensures { IfOk result (λ v. view v ≡ node_data shape.now (names name.now) (items_view below.items)) }
{
    match row_for(shape) {
        Some(found) => {
            let value = row_value(alloc, found, below)?;
            Ok(value)
        }
        None => {
            let value = special_value(alloc, shape, name, below)?;
            Ok(value)
        }
    }
}

/// What is written for a node: an object of ESTree, or a list of such for the items of a list
/// field. The only error is that memory runs out.
#[tactic(auto, using(crate::proofs::Lists::items_begin, crate::proofs::Lists::node_within))]
pub fn value(alloc: Global, node: &Node) -> Result<Value, AllocError>
    ensures { IfOk result (λ v. view v ≡ tree_data node.now) }
{
    let parts = node.parts();
    let mut below = Vec::with_capacity(alloc, parts.len())?;
    for part in parts {
        let found = value(alloc, part)?;
        below.push(found)?;
    }
    node_value(alloc, node.shape(), node.name(), below)
}
