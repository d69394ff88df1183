//! Branches of `if` and bodies of loops as a rule: 79, and where it does nothing 78 of loops, then
//! of a `do` that is run once, and then 84.

ghost use Rattle.std.specs.Prelude.{◌≡◌, is_some, unwrap_or, IfOk, OnOk};
ghost use Rattle.mini_logic.specs.Lighter.{body_lighter};
ghost use Rattle.mini_logic.specs.MinimizeBody.{once_written, loop_written, written, Gives, Rests};
ghost use Rattle.mini_tree.specs.Rule.{Applied};

use crate::rewrites::minimize_for_statement::minimize_for_statement;
use crate::rewrites::remove_last_break::remove_last_break;
use crate::rewrites::remove_last_continue::remove_last_continue;
use crate::rewrites::unwrap_block::unwrap_block;
use mini_model::{OutOfMemory, Position};
use mini_node::Node;
use mini_tree::{Context, Rule};
use std::alloc::Global;

// 78 of a `do` that is run once, and where it does nothing 84.
#[tactic(auto, using(crate::proofs::MinimizeBody::first_there, crate::proofs::MinimizeBody::first_said, crate::proofs::MinimizeBody::once_there, crate::proofs::MinimizeBody::once_said))]
fn minimize_once(alloc: Global, node: &mut Node) -> Result<bool, OutOfMemory>
    ensures tree { OnOk result (node.new ≡ unwrap_or (once_written node.old) node.old) }
    ensures said { IfOk result (λ changed. changed ≡ is_some (once_written node.old)) }
{
    if remove_last_break(alloc, node)? {
        return Ok(true);
    }
    minimize_for_statement(alloc, node)
}

// 78 of loops, and where it does nothing the others.
#[tactic(auto, using(crate::proofs::MinimizeBody::first_there, crate::proofs::MinimizeBody::first_said, crate::proofs::MinimizeBody::loop_there, crate::proofs::MinimizeBody::loop_said))]
fn minimize_loop(alloc: Global, node: &mut Node) -> Result<bool, OutOfMemory>
    ensures tree { OnOk result (node.new ≡ unwrap_or (loop_written node.old) node.old) }
    ensures said { IfOk result (λ changed. changed ≡ is_some (loop_written node.old)) }
{
    if remove_last_continue(alloc, node)? {
        return Ok(true);
    }
    minimize_once(alloc, node)
}

/// A block of one statement that isn't scoped becomes that statement, the last `continue;` of a
/// loop goes, and the last `break;` of a `do` that is run once, and what leaves a `for` first goes
/// into its test. The answer says whether one of them was done; the only error is that memory runs
/// out, and then the statement is fit only to be dropped.
#[tactic(auto, using(crate::proofs::MinimizeBody::first_there, crate::proofs::MinimizeBody::first_said, crate::proofs::MinimizeBody::body_there, crate::proofs::MinimizeBody::body_said))]
pub fn minimize_body(alloc: Global, node: &mut Node) -> Result<bool, OutOfMemory>
    ensures tree { OnOk result (node.new ≡ unwrap_or (written node.old) node.old) }
    ensures said { IfOk result (λ changed. changed ≡ is_some (written node.old)) }
{
    if unwrap_block(alloc, node)? {
        return Ok(true);
    }
    minimize_loop(alloc, node)
}

/// The rows of branches and bodies as a rule: of each statement.
pub struct MinimizeBodies;

impl<C: Context> Rule<C> for MinimizeBodies {
    ghost gives = { λ o q. Gives };

    ghost rests = { λ o q. Rests };

    ghost lighter = { λ o q. body_lighter };

    #[tactic(auto, using(crate::proofs::MinimizeBody::applied))]
    fn apply(
        &self,
        alloc: Global,
        node: &mut Node,
        place: Position,
        context: &mut C,
    ) -> Result<bool, OutOfMemory> {
        match place {
            Position::Stmt(_) => Ok(minimize_body(alloc, node)?),
            _ => Ok(false),
        }
    }
}
