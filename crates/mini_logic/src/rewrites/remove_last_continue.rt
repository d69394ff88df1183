//! Row 78 of loops: `while (a) { b(); continue; }` becomes `while (a) { b(); }`, and
//! `while (a) continue;` becomes `while (a);`, each of which is lighter in every place.

ghost use Rattle.std.specs.Prelude.{◌≡◌, ◌<◌, true, is_some, unwrap_or, IfSome, IfOk, OnOk};
ghost use Rattle.mini_model.specs.Tree.{children, count};
ghost use Rattle.mini_logic.specs.LastContinue.{goes_on as it_goes_on, last_of, before_last, ends_going as it_ends_going, is_idle_end as it_ends_idly, left_of as what_is_left, idle_at, place as place_of, left_at as left_at_place, written};
ghost use Rattle.mini_logic.specs.UnwrapBlock.{body_place as body_place_of};

use crate::rewrites::unwrap_block::body_place;
use mini_model::{OutOfMemory, Shape};
use mini_node::{
    Node, Nodes, block, discard, empty_statement, is_absent_part, is_block, one, taken,
};
use std::alloc::Global;

// `continue;`
fn goes_on(node: &Node) -> bool
    ensures { result ≡ it_goes_on node.now }
{
    matches!(node.shape(), Shape::ContinueStatement)
        && node.is_bare(1)
        && is_absent_part(node.child(0))
}

// Whether the last statement is `continue;`.
fn goes_on_last(statements: &Nodes) -> bool
    ensures { result ≡ it_goes_on (last_of statements.now) }
{
    let count = statements.len();
    if count == 0 {
        return false;
    }
    goes_on(statements.child(count - 1))
}

// `{ a; continue; }`
fn ends_going(node: &Node) -> bool
    ensures { result ≡ it_ends_going node.now }
{
    is_block(node) && goes_on_last(node.child(0).children())
}

// Whether it is `continue;`, or a block that ends with it.
fn is_idle_end(node: &Node) -> bool
    ensures { result ≡ it_ends_idly node.now }
{
    goes_on(node) || ends_going(node)
}

/// Drops the last statement of a list.
#[tactic(auto, using(crate::proofs::LastContinue::popped, crate::proofs::LastContinue::none_popped))]
pub fn drop_last(statements: &mut Nodes)
    ensures { statements.new ≡ before_last statements.old }
{
    if let Some(last) = statements.pop() {
        discard(last);
    }
}

// What is left of it.
fn left_of(alloc: Global, body: Node) -> Result<Node, OutOfMemory>
    ensures { IfOk result (λ made. made ≡ what_is_left body) }
{
    if goes_on(&body) {
        discard(body);
        return Ok(empty_statement(alloc));
    }
    let mut statements = one(body).into_children();
    drop_last(&mut statements);
    block(alloc, statements)
}

// The place of a body that is one.
fn place(node: &Node) -> Option<usize>
    ensures value { result ≡ place_of node.now }
    ensures within { IfSome result (λ at. at < count (children node.now)) }
{
    match body_place(node) {
        Some(at) => {
            if is_idle_end(node.child(at)) {
                Some(at)
            } else {
                None
            }
        }
        None => None,
    }
}

// With what is left of it.
#[tactic(auto, using(crate::proofs::Negations::with_twice, crate::proofs::Negations::count_with))]
fn left_at(alloc: Global, mut node: Node, at: usize) -> Result<Node, OutOfMemory>
    requires { at < count (children node) }
    ensures { IfOk result (λ made. made ≡ left_at_place node at) }
{
    let mut children = node.take_children();
    let left = left_of(alloc, children.take(at))?;
    discard(children.replace(at, left));
    Ok(node.over(children))
}

/// The last `continue;` of the body of a loop goes, after which the loop goes on by itself
/// (ECMA-262, "LoopContinues"). The answer says whether it did; the only error is that memory runs
/// out, and then the statement is fit only to be dropped.
pub fn remove_last_continue(alloc: Global, node: &mut Node) -> Result<bool, OutOfMemory>
    ensures tree { OnOk result (node.new ≡ unwrap_or (written node.old) node.old) }
    ensures said { IfOk result (λ changed. changed ≡ is_some (written node.old)) }
{
    match place(node) {
        Some(at) => {
            *node = left_at(alloc, taken(alloc, node), at)?;
            Ok(true)
        }
        None => Ok(false),
    }
}
