//! Row 84 of lexical names: `for (i; t; u) { if (x) break; let y = a(); b(y); }` becomes
//! `for (i; t && !x; u) { let y = a(); b(y); }`.

ghost use Rattle.std.specs.Prelude.{◌≡◌, IfOk};
ghost use Rattle.mini_rows.specs.Lexical.{Row84Lexical};
ghost use Rattle.mini_lexical.specs.MinimizeLexicalStatement as row;
ghost use Rattle.mini_lexical.specs.MinimizeLexicalStatement.{AppliedBy};

use crate::held::are_held;
use mini_logic::{leads_from_block, with_test};
use mini_model::OutOfMemory;
use mini_node::{Node, taken};
use mini_steady::SteadyNames;
use std::alloc::Global;

// `for (i; t; u) { if (x) break; .. }`, where no name of the block is shown, and none stands in x.
#[tactic(auto, using(crate::proofs::LoopRows::four, crate::proofs::LoopRows::one, crate::proofs::LoopRows::some, crate::proofs::LoopRows::three))]
fn leaves<S: SteadyNames>(node: &Node, body: u32, steady: &S) -> bool
    ensures { result ≡ row.leaves (S.sets steady.now body).unshared node.now }
{
    if !leads_from_block(node) {
        return false;
    }
    let statements = node.child(3).child(0);
    let test = statements.child(0).child(0);
    are_held(statements.parts(), test, body, steady)
}

/// A loop whose body begins by leaving it has that in its test, where no event of the body with
/// this number shows the names that its block declares, and none stands in what leaves it. The
/// answer says whether it did, and where it did nothing the row doesn't read the statement; the
/// only error is that memory runs out, and then it is fit only to be dropped.
pub fn minimize_lexical_for_statement<S: SteadyNames>(
    alloc: Global,
    node: &mut Node,
    body: u32,
    steady: &S,
) -> Result<bool, OutOfMemory>
    ensures { IfOk result (λ changed. AppliedBy (Row84Lexical (S.sets steady.now body).unshared) node.old node.new changed) }
{
    if !leaves(node, body, steady) {
        return Ok(false);
    }
    *node = with_test(alloc, taken(alloc, node))?;
    Ok(true)
}
