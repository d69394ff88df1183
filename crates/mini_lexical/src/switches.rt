//! Row 80 of lexical names: `switch (a) { case 1: let x = b(); c(x); break; }` becomes
//! `if (a === 1) { let x = b(); c(x); }`.

ghost use Rattle.std.specs.Prelude.{◌≡◌, IfOk};
ghost use Rattle.mini_rows.specs.Lexical.{Row80Lexical};
ghost use Rattle.mini_lexical.specs.MinimizeLexicalStatement as row;
ghost use Rattle.mini_lexical.specs.MinimizeLexicalStatement.{AppliedBy};

use crate::held::are_held;
use mini_model::OutOfMemory;
use mini_node::{Node, taken};
use mini_steady::SteadyNames;
use mini_stmt::declares_nothing;
use mini_switch::{holds_one_case, inlined, is_case, stay_inside};
use mini_syntax::is_plain;
use std::alloc::Global;

// Whether the statements of a case may stand in a branch: its test writes a value out, in which no
// name stands.
fn can_be_branch<S: SteadyNames>(case: &Node, body: u32, steady: &S) -> bool
    ensures { result ≡ row.can_be_branch (S.sets steady.now body).unshared case.now }
{
    is_case(case)
        && is_plain(case.child(0))
        && are_held(case.child(1).parts(), case.child(0), body, steady)
        && stay_inside(case.child(1).children())
}

fn inlines<S: SteadyNames>(node: &Node, body: u32, steady: &S) -> bool
    ensures { result ≡ row.inlines (S.sets steady.now body).unshared node.now }
{
    holds_one_case(node)
        && declares_nothing(node.child(0))
        && can_be_branch(node.child(1).child(0), body, steady)
}

/// A `switch` of one case becomes an `if`, where no event of the body with this number shows the
/// names that the case declares. The answer says whether it did, and where it did nothing the row
/// doesn't read the statement; the only error is that memory runs out, and then it is fit only to
/// be dropped.
pub fn minimize_lexical_switch_statement<S: SteadyNames>(
    alloc: Global,
    node: &mut Node,
    body: u32,
    steady: &S,
) -> Result<bool, OutOfMemory>
    ensures { IfOk result (λ changed. AppliedBy (Row80Lexical (S.sets steady.now body).unshared) node.old node.new changed) }
{
    if !inlines(node, body, steady) {
        return Ok(false);
    }
    *node = inlined(alloc, taken(alloc, node))?;
    Ok(true)
}
