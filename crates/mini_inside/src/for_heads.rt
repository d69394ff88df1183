//! Row 71 in the head of a `for`: `for (let x = 1, y = g(x); y(); ) y(y);` becomes
//! `for (let y = g(1); y(); ) y(y);`. The four parts of the `for` are asked like the statements of
//! a block, of which its declaration is the first.

ghost use Rattle.std.specs.Prelude.{◌≡◌, ◌<◌, true};
ghost use Rattle.mini_model.specs.Tree.{children, count, empty_statement as is_nothing};
ghost use Rattle.mini_unused.specs.Allowed.{switches_of};
ghost use Rattle.mini_unused.specs.RemoveUnusedDeclaration.{allowed, open_in};
ghost use Rattle.mini_unused.specs.SubstituteNext.{NextOf};
ghost use Rattle.mini_inside.specs.Holding as row;
ghost use Rattle.mini_inside.specs.Holding.{AppliedNext};

use mini_context::TraverseCtx;
use mini_node::{Node, discard, empty_statement};
use mini_unused::{has_eval, next_of, substitute_next};
use std::alloc::Global;

// Of its declarators the first whose name the next one reads first, and nothing else in the `for`
// mentions.
fn next_in_head(alloc: Global, node: &Node, context: &TraverseCtx) -> Option<usize>
    requires { 0 < count (children node.now) }
    ensures { NextOf (open_in is_nothing (allowed context.now)) is_nothing (children node.now) 0 result }
{
    let outside = empty_statement(alloc);
    let found = next_of(&outside, node.children(), 0, context);
    discard(outside);
    found
}

/// From the head of a `for` over a `let` or a `const` the first declarator goes whose name the next
/// one reads first, and nothing else in the `for` mentions; its initializer goes into the next. The
/// answer says whether one did.
pub fn substitute_next_in_head(alloc: Global, node: &mut Node, context: &TraverseCtx) -> bool
    requires head { row.has_head node.old ≡ true }
    requires parts { 0 < count (children node.old) }
    ensures { AppliedNext (switches_of context.now.options) node.old node.new result }
{
    match next_in_head(alloc, node, context) {
        Some(which) => {
            if has_eval(node) {
                return false;
            }
            substitute_next(node, 0, which);
            true
        }
        None => false,
    }
}
