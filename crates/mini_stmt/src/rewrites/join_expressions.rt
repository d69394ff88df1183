//! 66: `a; b;` becomes `a, b;`.

ghost use Rattle.std.specs.Prelude.{◌≡◌, IfOk};
ghost use Rattle.mini_stmt.specs.JoinExpressions as row;

use crate::terms::join_sequence;
use mini_model::OutOfMemory;
use mini_node::{Node, expression_statement, one};
use std::alloc::Global;

// `a, b;`, of `a;` and `b;`
pub fn joined_expressions(alloc: Global, first: Node, next: Node) -> Result<Node, OutOfMemory>
    ensures { IfOk result (λ made. made ≡ row.joined_expressions first next) }
{
    let expression = join_sequence(alloc, one(first), one(next))?;
    expression_statement(alloc, expression)
}
