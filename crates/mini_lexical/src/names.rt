//! Both rows, as rows of the own code of a body.

ghost use Rattle.std.specs.Prelude.{◌≡◌, IfOk};
ghost use Rattle.mini_rows.specs.Lexical.{LexicalStatement};
ghost use Rattle.mini_rows.specs.Steady.{LexicalRows};
ghost use Rattle.mini_rows.proofs.LexicalKept.{lexical_more};
ghost use Rattle.mini_lexical.specs.MinimizeLexicalStatement.{AppliedBy};
ghost use Rattle.mini_lexical.specs.Open.{lexical_keeps, lexical_open};

use crate::loops::minimize_lexical_for_statement;
use crate::switches::minimize_lexical_switch_statement;
use mini_model::{OutOfMemory, Position};
use mini_node::Node;
use mini_steady::{BodyCode, OwnRewrites, SteadyNames};
use std::alloc::Global;

// Row 80 or 84 of a statement.
fn minimize_lexical_statement<S: SteadyNames>(
    alloc: Global,
    node: &mut Node,
    body: u32,
    steady: &S,
) -> Result<bool, OutOfMemory>
    ensures { IfOk result (λ changed. AppliedBy (LexicalStatement (S.sets steady.now body).unshared) node.old node.new changed) }
{
    if minimize_lexical_switch_statement(alloc, node, body, steady)? {
        return Ok(true);
    }
    let second = minimize_lexical_for_statement(alloc, node, body, steady)?;
    Ok(second)
}

/// Rows of names that no event of the body shows: 80 and 84.
pub struct LexicalNames;

impl<S: SteadyNames> OwnRewrites<S> for LexicalNames {
    ghost rows = { λ o. LexicalRows };

    fn rewrite(
        &self,
        alloc: Global,
        node: &mut Node,
        place: Position,
        body: &BodyCode,
        steady: &S,
    ) -> Result<bool, OutOfMemory> {
        match place {
            Position::Stmt(_) => Ok(minimize_lexical_statement(alloc, node, body.number, steady)?),
            _ => Ok(false),
        }
    }

    ghost opens = { λ o. lexical_open };

    ghost more = { λ o. lexical_more };

    ghost keeps = { λ o. lexical_keeps };
}
