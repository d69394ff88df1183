//! Row 75 of loops. `while (a) { if (b) continue; c(); }` becomes `while (a) { if (!b) { c(); } }`,
//! and `while (a) { if (b) { c(); continue; } d(); }` becomes
//! `while (a) { if (b) { c(); } else { d(); } }`; and `while (a) if (b) { c(); continue; }` becomes
//! `while (a) if (b) { c(); }`.

ghost use Rattle.std.specs.Prelude.{◌≡◌, ◌<◌, true, false, Some, IfSome, IfOk};
ghost use Rattle.mini_model.specs.Tree.{children, count};
ghost use Rattle.mini_node.specs.Children.{part, is_bare as is_it_bare};
ghost use Rattle.mini_node.specs.Kinds.{is_block as is_it_block};
ghost use Rattle.mini_stmt.specs.MinimizeBody.{EarlyAt, is_guard as it_is_guard};
ghost use Rattle.mini_stmt.specs.SpreadBlock.{body_of as body_of_block};
ghost use Rattle.mini_stmt.specs.TurnLoopGuards.{some_if, body_place as body_place_of, TurnedIn, TurnedWhole, TurnsLoop, GivesLoops, LoopsRest};
ghost use Rattle.mini_stmt.specs.Lighter.{loops_lighter};

use crate::rewrites::minimize_body::{early_at, is_guard, turn_at, turned};
use crate::rewrites::spread_block::body_of;
use mini_model::{OutOfMemory, Shape};
use mini_node::{Node, Nodes, block, discard, is_block, taken};
use mini_tree::{Context, Position, Rule};
use std::alloc::Global;

// The place of one of so many children.
fn place_of_bare(node: &Node, arity: usize, at: usize) -> Option<usize>
    requires { at < arity }
    ensures value { result ≡ some_if (is_it_bare node.now arity) at }
    ensures within { IfSome result (λ at. at < count (children node.now)) }
{
    if node.is_bare(arity) { Some(at) } else { None }
}

// The place of the body of a loop.
fn body_place(node: &Node) -> Option<usize>
    ensures value { result ≡ body_place_of node.now }
    ensures within { IfSome result (λ at. at < count (children node.now)) }
{
    match node.shape() {
        Shape::WhileStatement => place_of_bare(node, 2, 1),
        Shape::DoWhileStatement => place_of_bare(node, 2, 0),
        Shape::ForStatement => place_of_bare(node, 4, 3),
        Shape::ForInStatement => place_of_bare(node, 3, 2),
        Shape::ForOfStatement => place_of_bare(node, 3, 2),
        _ => None,
    }
}

// The guard at a place in the body takes in what follows.
fn turned_in(alloc: Global, mut node: Node, at: usize, guard: usize) -> Result<Node, OutOfMemory>
    requires place { at < count (children node) }
    requires guard { EarlyAt true (body_of_block (part node at)) (Some guard) }
    ensures { IfOk result (TurnedIn node at guard) }
{
    let mut children = node.take_children();
    let mut list = body_of(children.take(at));
    turn_at(alloc, true, &mut list, guard)?;
    let made = block(alloc, list)?;
    discard(children.replace(at, made));
    Ok(node.over(children))
}

// The guard that is the whole body takes in nothing.
fn turned_whole(alloc: Global, mut node: Node, at: usize) -> Result<Node, OutOfMemory>
    requires place { at < count (children node) }
    requires guard { it_is_guard true (part node at) ≡ true }
    ensures { IfOk result (TurnedWhole node at) }
{
    let mut children = node.take_children();
    let made = turned(alloc, true, children.take(at), Nodes::new(alloc))?;
    discard(children.replace(at, made));
    Ok(node.over(children))
}

// Where the body is no block.
fn turn_whole(alloc: Global, node: &mut Node, at: usize) -> Result<bool, OutOfMemory>
    requires place { body_place_of node.old ≡ Some at }
    requires within { at < count (children node.old) }
    requires bare { is_it_block (part node.old at) ≡ false }
    ensures { IfOk result (λ changed. TurnsLoop node.old node.new changed) }
{
    if !is_guard(true, node.child(at)) {
        return Ok(false);
    }
    *node = turned_whole(alloc, taken(alloc, node), at)?;
    Ok(true)
}

// In the body of a loop.
fn turn_in_body(alloc: Global, node: &mut Node, at: usize) -> Result<bool, OutOfMemory>
    requires place { body_place_of node.old ≡ Some at }
    requires within { at < count (children node.old) }
    ensures { IfOk result (λ changed. TurnsLoop node.old node.new changed) }
{
    if !is_block(node.child(at)) {
        return turn_whole(alloc, node, at);
    }
    match early_at(true, node.child(at).child(0).children()) {
        Some(guard) => {
            *node = turned_in(alloc, taken(alloc, node), at, guard)?;
            Ok(true)
        }
        None => Ok(false),
    }
}

/// The last guard in the body of a loop that goes on with the next turn takes in what follows it,
/// where that nests no deeper than 500 nodes, or nothing where it is the body: where the body ends
/// the loop goes on by itself (ECMA-262, "LoopContinues"). The answer says whether there was one;
/// the only error is that memory runs out, and then the statement is fit only to be dropped.
pub fn turn_loop_guard(alloc: Global, node: &mut Node) -> Result<bool, OutOfMemory>
    ensures { IfOk result (λ changed. TurnsLoop node.old node.new changed) }
{
    match body_place(node) {
        Some(at) => turn_in_body(alloc, node, at),
        None => Ok(false),
    }
}

/// Row 75 of loops as a rule: of each loop.
pub struct TurnLoopGuards;

impl<C: Context> Rule<C> for TurnLoopGuards {
    ghost gives = { GivesLoops };

    ghost rests = { LoopsRest };

    ghost lighter = { loops_lighter };

    fn apply(
        &self,
        alloc: Global,
        node: &mut Node,
        place: Position,
        context: &mut C,
    ) -> Result<bool, OutOfMemory> {
        if !context.options().sequences {
            return Ok(false);
        }
        match place {
            Position::Stmt(_) => Ok(turn_loop_guard(alloc, node)?),
            _ => Ok(false),
        }
    }
}
