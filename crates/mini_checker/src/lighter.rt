//! The weight test: a row writes only where that weighs less.

ghost use Rattle.std.specs.Prelude.{◌≡◌, nat_lt, IfOk};
ghost use Rattle.mini_model.specs.Weight.{weight as weight_at};
ghost use Rattle.mini_log.specs.RowStep.{or_lighter};

use mini_model::{OutOfMemory, Position};
use mini_node::Node;
use mini_tree::weight;

/// The weight of a node in its place. Memory counts as run out where it is 2^64 - 1 or more.
pub fn exact_weight(node: &Node, place: Position) -> Result<u64, OutOfMemory>
    ensures { IfOk result (λ weight. weight ≡ weight_at place node.now) }
{
    let weight = weight(node, place);
    if weight == u64::MAX {
        Err(OutOfMemory)
    } else {
        Ok(weight)
    }
}

/// Whether the first weighs less than the second, in a place. Memory counts as run out where one of
/// them weighs 2^64 - 1 or more.
pub fn is_lighter(first: &Node, second: &Node, place: Position) -> Result<bool, OutOfMemory>
    ensures { IfOk result (λ lighter. lighter ≡ nat_lt (weight_at place first.now) (weight_at place second.now)) }
{
    let left = exact_weight(first, place)?;
    let right = exact_weight(second, place)?;
    Ok(left < right)
}

/// The node that was made of another, where it weighs less in the place; else the rest. Memory
/// counts as run out where one of them weighs 2^64 - 1 or more.
pub fn lighter(
    node: &Node,
    place: Position,
    made: Option<Node>,
    rest: Option<Node>,
) -> Result<Option<Node>, OutOfMemory>
    ensures { IfOk result (λ left. left ≡ or_lighter place node.now made rest) }
{
    match made {
        Some(made) => {
            if is_lighter(&made, node, place)? {
                Ok(Some(made))
            } else {
                Ok(rest)
            }
        }
        None => Ok(rest),
    }
}
