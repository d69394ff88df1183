//! Of the head of a `for`: `for (let x = a(), y = g(x); y; ) h(y, y);` becomes
//! `for (let y = g(a()); y; ) h(y, y);`.

ghost use Rattle.std.specs.Prelude.{◌≡◌, ◌<◌, true, IfOk};
ghost use Rattle.mini_model.specs.Tree.{children, count};
ghost use Rattle.mini_steady.specs.Declarations.{known_of};
ghost use Rattle.mini_unused.specs.Allowed.{switches_of};
ghost use Rattle.mini_inside.specs.Holding as row;
ghost use Rattle.mini_past.specs.PastInBlocks.{AppliedPastHead};

use crate::code_names::CodeNames;
use crate::searching::substitute_past;
use mini_model::OutOfMemory;
use mini_node::{Node, listed, of_one, one};
use mini_steady::{BodyCode, SteadyNames};
use mini_unused::{put_child, take_child};
use std::alloc::Global;

/// In the head of a `for` in the code of a body, which is read as a list of this one declaration,
/// row 71 past steady names is made. The answer says whether a name went; the only error is that
/// memory runs out, and then the node is fit only to be dropped.
pub fn substitute_past_in_head<S: SteadyNames>(
    alloc: Global,
    node: &mut Node,
    body: &BodyCode,
    steady: &S,
) -> Result<bool, OutOfMemory>
    requires head { row.has_head node.old ≡ true }
    requires parts { 0 < count (children node.old) }
    ensures { IfOk result (λ changed. AppliedPastHead (switches_of (S.orders steady.now)) (known_of (S.sets steady.now) body.now) node.old node.new changed) }
{
    let names = CodeNames {
        names: steady,
        code: body,
    };
    let head = take_child(node, 0);
    let mut list = listed(of_one(alloc, head)?);
    let changed = substitute_past(alloc, node, &mut list, body.number, &names);
    put_child(node, 0, one(list));
    Ok(changed)
}
