//! Operands that one logical operator joins, each to the left of the next.

ghost use Rattle.std.specs.Prelude.{◌≡◌, IfOk};
ghost use Rattle.mini_choices.specs.JoinWithLeftAssociativeOp.{joined_left};

use mini_model::{LogicalOperator, OutOfMemory};
use mini_node::{Node, is_logical, logical, two};
use std::alloc::Global;

/// `a || b`, where b may be of `||` itself, and so of `&&` and `??`: of `a` and `b || c` it makes
/// `a || b || c`. It means what the operator over the two does, and its right operand is not of the
/// operator (`left_joins_mean_the_same`). The only error is that memory runs out.
#[tactic(auto, using(crate::proofs::LeftJoins::left_below, crate::proofs::LeftJoins::left_there, crate::proofs::Spines::first_within))]
pub fn join_with_left_associative_op(
    alloc: Global,
    operator: LogicalOperator,
    first: Node,
    second: Node,
) -> Result<Node, OutOfMemory>
    ensures { IfOk result (λ made. made ≡ joined_left operator first second) }
{
    if !is_logical(&second, operator) {
        return logical(alloc, operator, first, second);
    }
    let (left, right) = two(second);
    let joined = join_with_left_associative_op(alloc, operator, first, left)?;
    join_with_left_associative_op(alloc, operator, joined, right)
}
