//! Row 71 past steady names of a block further inside a body, those of a `try` among them, of a
//! case and of the head of a `for`, as a row of the own code of whatever has the body: of
//! `function f(g) { if (g) { let x = a(); return g(x); } }` the block becomes
//! `{ ; return g(a()); }`.

ghost use Rattle.std.specs.Prelude.{◌≡◌, IfOk};
ghost use Rattle.mini_rows.specs.PastBlocks.{PastBlocks};
ghost use Rattle.mini_rows.proofs.PastBlockMore.{past_blocks_more};
ghost use Rattle.mini_steady.specs.Declarations.{known_of};
ghost use Rattle.mini_unused.specs.Allowed.{switches_of};
ghost use Rattle.mini_past.specs.PastInBlocks.{AppliedPastBlock, AppliedPastStatement, blocks_keep, blocks_open};

use crate::cases::substitute_past_in_cases;
use crate::code_names::CodeNames;
use crate::heads::substitute_past_in_head;
use crate::searching::substitute_past;
use mini_inside::{has_head, is_switch};
use mini_model::{OutOfMemory, Position};
use mini_node::{Node, is_block};
use mini_steady::{BodyCode, OwnRewrites, SteadyNames};
use mini_unused::{put_child, take_child};
use std::alloc::Global;

/// In a block in the code of a body row 71 past steady names is made:
/// `{ let x = a(); return g(x); }` becomes `{ ; return g(a()); }`. The answer says whether a name
/// went.
#[tactic(auto, using(crate::proofs::Holders::same_parts, crate::proofs::Holders::part_twice))]
pub fn substitute_past_in_block<S: SteadyNames>(
    alloc: Global,
    node: &mut Node,
    body: &BodyCode,
    steady: &S,
) -> bool
    ensures { AppliedPastBlock (switches_of (S.orders steady.now)) (known_of (S.sets steady.now) body.now) node.old node.new result }
{
    if !is_block(node) {
        return false;
    }
    let names = CodeNames {
        names: steady,
        code: body,
    };
    let mut list = take_child(node, 0);
    let changed = substitute_past(alloc, node, &mut list, body.number, &names);
    put_child(node, 0, list);
    changed
}

/// In a statement in the code of a body row 71 past steady names is made: in a block, in the cases
/// of a `switch`, or in the head of a `for`. The answer says whether a name went; the only error is
/// that memory runs out, and then the node is fit only to be dropped.
pub fn substitute_past_in_statement<S: SteadyNames>(
    alloc: Global,
    node: &mut Node,
    body: &BodyCode,
    steady: &S,
) -> Result<bool, OutOfMemory>
    ensures { IfOk result (λ changed. AppliedPastStatement (switches_of (S.orders steady.now)) (known_of (S.sets steady.now) body.now) node.old node.new changed) }
{
    if has_head(node) {
        return substitute_past_in_head(alloc, node, body, steady);
    }
    if is_switch(node) {
        return Ok(substitute_past_in_cases(alloc, node, 0, body, steady));
    }
    Ok(substitute_past_in_block(alloc, node, body, steady))
}

/// Row 71 past steady names of blocks, of cases and of heads of `for`.
pub struct PastNamesInBlocks;

impl<S: SteadyNames> OwnRewrites<S> for PastNamesInBlocks {
    ghost rows = { PastBlocks };

    fn rewrite(
        &self,
        alloc: Global,
        node: &mut Node,
        place: Position,
        body: &BodyCode,
        steady: &S,
    ) -> Result<bool, OutOfMemory> {
        match place {
            Position::Stmt(_) => substitute_past_in_statement(alloc, node, body, steady),
            Position::Elsewhere => Ok(substitute_past_in_block(alloc, node, body, steady)),
            _ => Ok(false),
        }
    }

    ghost opens = { blocks_open };

    ghost more = { past_blocks_more };

    ghost keeps = { blocks_keep };
}
