//! Row 79 of branches and bodies: `if (a) { b(); } else { c(); }` becomes `if (a) b(); else c();`,
//! a branch at a time, and `while (a) { b(); }` becomes `while (a) b();`, each of which is lighter
//! in every place.

ghost use Rattle.std.specs.Prelude.{◌≡◌, ◌<◌, true, is_some, unwrap_or, IfSome, OnOk, IfOk};
ghost use Rattle.mini_model.specs.Tree.{children, count};
ghost use Rattle.mini_node.specs.Children.{part, is_bare as is_it_bare};
ghost use Rattle.mini_logic.specs.UnwrapBlock.{holds_one as it_holds_one, holds_bare as it_holds_bare, some_if, body_place as body_place_of, held_at as held_at_place, branch_place as branch_place_of, place as place_of, unwrapped_at as unwrapped_at_place, written};

use crate::statements::{has_else, is_unscoped};
use crate::terms::has_one;
use mini_model::{OutOfMemory, Shape};
use mini_node::{Node, discard, is_block, is_if_statement, one, taken};
use std::alloc::Global;

// `{ a; }`, of a statement that isn't scoped
#[tactic(auto, using(crate::proofs::Alternates::one_counted))]
fn holds_one(node: &Node) -> bool
    ensures kind { result ≡ it_holds_one node.now }
    ensures outer { result ≡ true → count (children node.now) ≡ 1 }
    ensures inner { result ≡ true → 0 < count (children (part node.now 0)) }
{
    is_block(node) && has_one(node.child(0).children()) && is_unscoped(node.child(0).child(0))
}

// and that is no `if` with `else`
fn holds_bare(node: &Node) -> bool
    ensures { result ≡ it_holds_bare node.now }
{
    holds_one(node) && !has_else(node.child(0).child(0))
}

// The place of one of so many children.
fn place_of_bare(node: &Node, arity: usize, at: usize) -> Option<usize>
    requires { at < arity }
    ensures value { result ≡ some_if (is_it_bare node.now arity) at }
    ensures within { IfSome result (λ at. at < count (children node.now)) }
{
    if node.is_bare(arity) { Some(at) } else { None }
}

/// The place of the body of a loop.
pub fn body_place(node: &Node) -> Option<usize>
    ensures value { result ≡ body_place_of node.now }
    ensures within { IfSome result (λ at. at < count (children node.now)) }
{
    match node.shape() {
        Shape::WhileStatement => place_of_bare(node, 2, 1),
        Shape::DoWhileStatement => place_of_bare(node, 2, 0),
        Shape::ForStatement => place_of_bare(node, 4, 3),
        Shape::ForInStatement => place_of_bare(node, 3, 2),
        Shape::ForOfStatement => place_of_bare(node, 3, 2),
        _ => None,
    }
}

// The branch of an `if` that is a block of one.
fn branch_place(node: &Node) -> Option<usize>
    requires { count (children node.now) ≡ 3 }
    ensures value { result ≡ branch_place_of node.now }
    ensures within { IfSome result (λ at. at < count (children node.now)) }
{
    if holds_bare(node.child(1)) {
        Some(1)
    } else if holds_one(node.child(2)) {
        Some(2)
    } else {
        None
    }
}

// The body of a loop that is one.
fn loop_place(node: &Node) -> Option<usize>
    ensures value { result ≡ held_at_place node.now (body_place_of node.now) }
    ensures within { IfSome result (λ at. at < count (children node.now)) }
{
    match body_place(node) {
        Some(at) => {
            if holds_one(node.child(at)) {
                Some(at)
            } else {
                None
            }
        }
        None => None,
    }
}

// The place of the child whose block goes.
fn place(node: &Node) -> Option<usize>
    ensures value { result ≡ place_of node.now }
    ensures within { IfSome result (λ at. at < count (children node.now)) }
{
    if is_if_statement(node) {
        branch_place(node)
    } else {
        loop_place(node)
    }
}

// The node with the statement in the place of the block.
#[tactic(auto, using(crate::proofs::Negations::with_twice, crate::proofs::Negations::count_with))]
fn unwrapped_at(mut node: Node, at: usize) -> Node
    requires { at < count (children node) }
    ensures { result ≡ unwrapped_at_place node at }
{
    let mut children = node.take_children();
    let block = children.take(at);
    discard(children.replace(at, one(one(block))));
    node.over(children)
}

/// A block of one statement that isn't scoped becomes that statement, as a branch of an `if` or as
/// the body of a loop; an `if` with `else` keeps its block as a consequent. The answer says whether
/// it did; the only error is that memory runs out.
pub fn unwrap_block(alloc: Global, node: &mut Node) -> Result<bool, OutOfMemory>
    ensures tree { OnOk result (node.new ≡ unwrap_or (written node.old) node.old) }
    ensures said { IfOk result (λ changed. changed ≡ is_some (written node.old)) }
{
    match place(node) {
        Some(at) => {
            *node = unwrapped_at(taken(alloc, node), at);
            Ok(true)
        }
        None => Ok(false),
    }
}
